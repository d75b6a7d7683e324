//! What holds of moves.

ghost use Rattle.dj_moves.specs.Laws.{WantedAreThose, PutsAreMoves, CopiesAreMoves};

/// What an edge puts are the variables of its moves, and its copies are theirs, one for each.
pub fn edges_are_moves()
    ensures wanted { WantedAreThose }
    ensures puts { PutsAreMoves }
    ensures copies { CopiesAreMoves }
{}
