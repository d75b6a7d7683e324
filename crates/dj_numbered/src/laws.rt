//! What holds of bodies with other names.

ghost use Rattle.dj_numbered.specs.Numbering.{NumberedIsTyped, NumberedShows, NumbersAreApart, NumbersCountUp};
ghost use Rattle.dj_numbered.specs.Reads.{RenamedReads};
ghost use Rattle.dj_numbered.specs.Shows.{RenamedShows};
ghost use Rattle.dj_numbered.specs.Throws.{RenamedCatching, RenamedThrows};

/// A tree keeps the rules of definite assignment and of exceptions with other names, and shows the same.
pub fn other_names_show_the_same()
    ensures reads { RenamedReads }
    ensures throws { RenamedThrows }
    ensures catching { RenamedCatching }
    ensures shows { RenamedShows }
{}

/// In the order of its text the numbers of a body's variables and labels count up; so it is typed where the body was, and shows the same.
pub fn numbered_bodies_show_the_same()
    ensures apart { NumbersAreApart }
    ensures order { NumbersCountUp }
    ensures typed { NumberedIsTyped }
    ensures shows { NumberedShows }
{}
