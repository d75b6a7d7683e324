//! Variables of a body.

/// What a variable is for; it decides the letter of its spelling.
#[derive(Clone, Copy, PartialEq, Eq)]
pub enum VarKind {
    /// A parameter, spelled `p`.
    Param,
    /// A local variable, spelled `v`.
    Local,
    /// The variable of a catch clause, spelled `e`.
    Caught,
    /// The number of the next node in a state loop, spelled `s`.
    State,
}

/// A variable, spelled as its kind's letter and its number.
#[derive(Clone, Copy, PartialEq, Eq)]
pub struct Var {
    pub kind: VarKind,
    pub number: u32,
}
