//! What holds of the ways out of a block.

ghost use Rattle.dj_exits.specs.Laws.{ExitsLeave, BlocksFall, ExitsShow, FallsShow, BeforeIsCalm, ComparesAtoms, AfterIsCalm};
ghost use Rattle.dj_exits.specs.Apart.{NumbersStay, BlocksStayApart};
ghost use Rattle.dj_exits.specs.Straight.{FormulasPend, StraightReturns};

/// The statements by which a block is left have an answer, by each instruction that ends one and into the block behind it: where no cause speaks against the instruction, and edges have answers for atoms.
pub fn exits_are_rebuilt()
    ensures leave { ExitsLeave }
    ensures fall { BlocksFall }
{}

/// They show what the instruction shows: by a return, an exception, a jump or a test, and into the block behind it, where edges lead to their blocks.
pub fn exits_show()
    ensures leave { ExitsShow }
    ensures fall { FallsShow }
{}

/// Nothing is spilled where a birth has begun, before an instruction or behind it.
pub fn births_are_calm()
    ensures before { BeforeIsCalm }
    ensures compares { ComparesAtoms }
    ensures after { AfterIsCalm }
{}

/// The variables that a block's statements declare have numbers of their own: from the first on that the block was given, and fewer than 1,048,576 of them.
pub fn numbers_stay_apart()
    ensures stay { NumbersStay }
    ensures apart { BlocksStayApart }
{}

/// Code that is one expression in postfix form and `ireturn` becomes one return of that expression, with no declaration.
pub fn straight_blocks_return()
    ensures pend { FormulasPend }
    ensures returns { StraightReturns }
{}
