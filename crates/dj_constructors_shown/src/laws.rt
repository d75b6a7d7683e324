//! What holds of constructors of one block.

ghost use Rattle.dj_constructors_shown.specs.Shown.{ConstructorsAreShown};

/// The body that is printed of a constructor of one block, the call of another one first, is typed and shows what the constructor's code shows, where what it throws
/// is lawful.
pub fn constructors_are_shown()
    ensures constructor { ConstructorsAreShown }
{}
