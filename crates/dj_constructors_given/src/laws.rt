//! What the absence of causes gives for constructors.

ghost use Rattle.dj_constructors_given.specs.Given.{ConstructorsAreGiven, OpeningsAreGiven, OthersAreGivenBut, OthersDoTheirs, OwnCallsAreGiven};

/// Code that calls another constructor on `this` is that of an object's constructor.
pub fn constructors_are_given()
    ensures given { ConstructorsAreGiven }
{}

/// Its other instructions have members that source means.
pub fn others_are_given_but()
    ensures given { OthersAreGivenBut }
{}

/// What stands for them does what they do.
pub fn others_do_theirs()
    ensures given { OthersDoTheirs }
{}

/// The call means what source says.
pub fn own_calls_are_given()
    ensures given { OwnCallsAreGiven }
{}

/// What stands before it can be written as its arguments.
pub fn openings_are_given()
    ensures given { OpeningsAreGiven }
{}
