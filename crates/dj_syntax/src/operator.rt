//! Binary operators (JLS 15.17 to 15.24).

/// A binary operator, in the order in which their spellings are listed:
/// `* / % + - << >> >>> < <= > >= == != & ^ | && ||`.
#[derive(Clone, Copy, PartialEq, Eq)]
pub enum Op {
    Mul,
    Div,
    Rem,
    Add,
    Sub,
    Shl,
    Shr,
    Ushr,
    Lt,
    Le,
    Gt,
    Ge,
    Eq,
    Ne,
    And,
    Xor,
    Or,
    AndAlso,
    OrElse,
}
