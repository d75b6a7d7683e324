//! Laws.

ghost use Rattle.dj_member_trees.specs.Laws.{MembersAdvance};

/// What is built for an instruction on members, arrays or classes is what it is rebuilt to.
pub fn members_advance()
    ensures advance { MembersAdvance }
{}
