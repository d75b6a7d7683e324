//! The world that class files make.

ghost use Rattle.dj_worlds_made.specs.Made.{MadeWorldsHaveMembers, WorldsAreMade};

/// In the world that files make each class but Object names a superclass, and each constant is of its field's type.
pub fn worlds_are_made()
    ensures made { WorldsAreMade }
{}

/// Its members are those of its classes.
pub fn made_worlds_have_members()
    ensures members { MadeWorldsHaveMembers }
{}
