//! What holds of the runs of typed bodies.

ghost use Rattle.dj_never_stuck.specs.NeverStuck.{TypedIsNeverStuck};

/// No run of a typed body is stuck: whatever classes run beside those of its world, from arguments that fit its method,
/// whatever the answers, at each bound on the turns of its loops.
pub fn typed_bodies_never_go_wrong()
    ensures never { TypedIsNeverStuck }
{}
