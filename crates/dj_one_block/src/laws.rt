//! What holds of the statements of a method of one block.

ghost use Rattle.dj_one_block.specs.Flat.{LoneTreesAreFlat};

/// The statements that the one block of a method becomes stand by themselves: none holds others, none jumps, and none calls another constructor of its object.
pub fn lone_trees_are_flat()
    ensures flat { LoneTreesAreFlat }
{}
