//! The names of the variants that instructions hold.

use dj_code::{Calc, Element, Kind, Test};

pub fn kind_word(kind: Kind) -> &'static str {
    match kind {
        Kind::Int => "Int",
        Kind::Long => "Long",
        Kind::Float => "Float",
        Kind::Double => "Double",
        Kind::Ref => "Ref",
    }
}

pub fn element_word(element: Element) -> &'static str {
    match element {
        Element::Int => "Int",
        Element::Long => "Long",
        Element::Float => "Float",
        Element::Double => "Double",
        Element::Ref => "Ref",
        Element::Byte => "Byte",
        Element::Char => "Char",
        Element::Short => "Short",
    }
}

pub fn calc_word(calc: Calc) -> &'static str {
    match calc {
        Calc::Add => "Add",
        Calc::Sub => "Sub",
        Calc::Mul => "Mul",
        Calc::Div => "Div",
        Calc::Rem => "Rem",
        Calc::Neg => "Neg",
        Calc::Shl => "Shl",
        Calc::Shr => "Shr",
        Calc::Ushr => "Ushr",
        Calc::And => "And",
        Calc::Or => "Or",
        Calc::Xor => "Xor",
    }
}

pub fn test_word(test: Test) -> &'static str {
    match test {
        Test::Eq => "Eq",
        Test::Ne => "Ne",
        Test::Lt => "Lt",
        Test::Ge => "Ge",
        Test::Gt => "Gt",
        Test::Le => "Le",
    }
}
