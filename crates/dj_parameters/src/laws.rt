//! What holds of trees with parameters in place of their copies.

ghost use Rattle.dj_parameters.specs.Laws.{PrintedIsTyped, PrintedShows, ReadyWithParameters, ShowsWithParameters};

/// A tree with parameters in place of their copies may be declared where the tree may, and shows the same.
pub fn parameters_take_the_place_of_copies()
    ensures ready { ReadyWithParameters }
    ensures shows { ShowsWithParameters }
{}

/// The body that is printed is typed, and shows what the tree shows.
pub fn printed_bodies_show_the_same()
    ensures typed { PrintedIsTyped }
    ensures shows { PrintedShows }
{}
