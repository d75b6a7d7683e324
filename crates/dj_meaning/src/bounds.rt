//! What holds of the runs of a body at greater bounds.

ghost use Rattle.std.specs.Prelude.{ℕ, ◌≤◌, List};
ghost use Rattle.dj_names.specs.declared.header.Header.{Header};
ghost use Rattle.dj_names.specs.declared.members.ClassMembers.{ClassMembers};
ghost use Rattle.dj_syntax.specs.Trees.{Body};
ghost use Rattle.dj_values.specs.Values.{Value, Answer, IsBelow};
ghost use Rattle.dj_meaning.specs.Meaning.{source_show};

/// A run with a greater bound shows what one with a smaller bound shows, or goes on from it.
pub fn longer_bounds_show_more()
    ensures more { (headers : List Header) (members : List ClassMembers) (body : Body) (arguments : List Value) (answers : List Answer) (bound longer : ℕ) → bound ≤ longer
        → IsBelow (source_show headers members body arguments answers bound) (source_show headers members body arguments answers longer) }
{}
