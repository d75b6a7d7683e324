//! What the absence of causes gives.

ghost use Rattle.dj_given.specs.Given.{ClassesAreGiven, HeadsAreGiven, MembersAreGiven, NamesAreGiven, OthersAreGiven, RunsAreGiven, StrictIsGiven};

/// What the code of a method without a cause names can be said.
pub fn names_are_given()
    ensures given { NamesAreGiven }
{}

/// Its instructions have members that source means.
pub fn members_are_given()
    ensures given { MembersAreGiven }
{}

/// So have those beside calls of another constructor on `this`, and source means these calls.
pub fn others_are_given()
    ensures given { OthersAreGiven }
{}

/// They work on no float, and are linked.
pub fn runs_are_given()
    ensures given { RunsAreGiven }
{}

/// It keeps Java's rules.
pub fn strict_is_given()
    ensures given { StrictIsGiven }
{}

/// Its head is one that Java has.
pub fn heads_are_given()
    ensures given { HeadsAreGiven }
{}

/// Its class is in the world, and all above it.
pub fn classes_are_given()
    ensures given { ClassesAreGiven }
{}
