//! What holds of the ways out of a method of one block.

ghost use Rattle.dj_lone_exits.specs.Lone.{LoneExitsMean, LoneEdgesServe};

/// What a method of one block returns and throws means, as it is dressed, what the machine does with it: for all classes that may run in the world, where the body's
/// result is the code's. No edge leads to another block: so the ways out have answers where no instruction leads to one.
pub fn lone_exits_mean()
    ensures mean { LoneExitsMean }
    ensures serve { LoneEdgesServe }
{}
