//! What instructions work on and what they do, as enums without contents (JVMS 2.11).

/// What may be wrong with the code of a method, at a pc.
#[derive(Clone, Copy, Debug, PartialEq, Eq)]
pub enum BadKind {
    /// There is no such opcode, or it doesn't take this operand.
    Opcode,
    /// The content of the `Code` isn't whole, has bytes left, or has code of no length that there may
    /// be; or an instruction runs past the code.
    CutOff,
    /// A jump leads to no instruction, or a handler is none.
    Target,
    /// The range or the class of an entry of the exception table isn't right.
    Range,
    /// A StackMapTable isn't right.
    Frame,
}

/// The kind of values that an instruction works on (JVMS 2.11.1).
#[derive(Clone, Copy, PartialEq, Eq)]
pub enum Kind {
    Int,
    Long,
    Float,
    Double,
    Ref,
}

/// What an array that is read or written has as its elements; Byte is boolean too (JVMS 6.5, `baload`).
#[derive(Clone, Copy, PartialEq, Eq)]
pub enum Element {
    Int,
    Long,
    Float,
    Double,
    Ref,
    Byte,
    Char,
    Short,
}

/// What an arithmetic instruction does (JVMS 2.11.3).
#[derive(Clone, Copy, PartialEq, Eq)]
pub enum Calc {
    Add,
    Sub,
    Mul,
    Div,
    Rem,
    Neg,
    Shl,
    Shr,
    Ushr,
    And,
    Or,
    Xor,
}

/// How a conditional jump compares ints (JVMS 2.11.7).
#[derive(Clone, Copy, PartialEq, Eq)]
pub enum Test {
    Eq,
    Ne,
    Lt,
    Ge,
    Gt,
    Le,
}
