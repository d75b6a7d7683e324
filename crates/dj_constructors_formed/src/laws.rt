//! What holds of the tree of a constructor's one block.

ghost use Rattle.dj_constructors_formed.specs.Ready.{ConstructorTreesAreReady};
ghost use Rattle.dj_constructors_formed.specs.Entering.{ConstructorsMayEnter};

/// The tree of the one block of a constructor against which no cause speaks may be declared as the constructor's
/// body, where its variables may stand at the body's head; and there they may.
pub fn constructor_trees_are_ready()
    ensures enter { ConstructorsMayEnter }
    ensures ready { ConstructorTreesAreReady }
{}
