//! What holds of methods of one block.

ghost use Rattle.dj_one_block_shown.specs.Shown.{LoneTreesShow, OneBlockMethodsAreShown};

/// The statements of a method of one block show the block, whichever classes run; and the body that is declared with them is typed and shows what the method's
/// code shows, where what it throws is lawful.
pub fn one_block_methods_are_shown()
    ensures tree { LoneTreesShow }
    ensures method { OneBlockMethodsAreShown }
{}
