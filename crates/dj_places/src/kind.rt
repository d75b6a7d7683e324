//! The kinds of rules that a body keeps.

/// The kind of a rule, in the order that counts at one place.
#[derive(Clone, Copy, Debug, PartialEq, Eq)]
pub enum TypeKind {
    /// Names, scopes and well formed trees (JLS 6).
    Name,
    /// Types of operands, and of what is assigned, returned, thrown or locked.
    WrongType,
    /// Calls, and constructors (JLS 15.12, 15.9.3, 8.8.7).
    Call,
    /// Fields, and who may use them (JLS 15.11, 6.6).
    Access,
    /// Statements that can be reached, and how a body ends (JLS 14.21).
    Reach,
    /// Variables that are assigned where they are read (JLS 16).
    Assigned,
    /// Exceptions that are thrown (JLS 11.2).
    Thrown,
    /// Catch clauses (JLS 11.2.3).
    Catch,
    /// Labels, and jumps to them (JLS 14.7, 14.15, 14.16).
    Label,
}
