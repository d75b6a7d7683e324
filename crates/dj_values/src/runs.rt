//! Runs only add actions, and a run that goes on from one that was cut shows more.

ghost use Rattle.std.specs.Prelude.{List, Option};
ghost use Rattle.dj_names.specs.declared.header.Header.{Header};
ghost use Rattle.dj_values.specs.Values.{Value, IsBelow};
ghost use Rattle.dj_values.specs.Outcomes.{Reply, State, Outcome, outside, shown, IsFront, actions_of, Below};

/// Whatever a run has as its store: a reply only adds actions, and where a run is below another,
/// what it shows is below what the other shows.
pub fn longer_runs_show_more<S>()
    ensures adds { (headers : List Header) (reply : Reply (Option Value)) (state : State S)
        → IsFront state.world.actions (actions_of (outside headers reply state)) }
    ensures shown { (first second : Outcome S (Option Value)) → Below first second
        → IsBelow (shown first) (shown second) }
{}
