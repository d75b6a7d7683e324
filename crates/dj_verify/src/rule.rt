//! The rules of type checking.

/// A rule that an instruction breaks, in the order in which they are looked at.
#[derive(Clone, Copy, Debug, PartialEq, Eq)]
pub enum Rule {
    /// A frame is needed here, and none is given.
    NoFrame,
    /// What flows in from the instruction before doesn't go into the frame that is given.
    Into,
    /// The operands aren't there.
    Operands,
    /// There is no room on the stack or in the locals.
    Room,
    /// No frame is given at a target, or what flows there doesn't go into it.
    Target,
    /// No frame is given at a handler, or what may be thrown doesn't go into it.
    Handler,
    /// Control can run past the end.
    Past,
}
