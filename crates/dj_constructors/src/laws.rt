//! What holds of constructors of one block.

ghost use Rattle.dj_constructors.specs.Shown.{ConstructorTreesShow};

/// The call of another constructor and the statements behind it show the one block of a constructor's code, whichever classes run, and no jump leaves them.
pub fn constructor_trees_show()
    ensures tree { ConstructorTreesShow }
{}
