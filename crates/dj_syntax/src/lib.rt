//! Java source as trees: units, members, bodies, statements and expressions, and the one text of a unit.
//! It stands on `dj_names` for names, types, lists and boxes that contracts see as what they hold.
//! The layers above use the trees, `copy` of each, which answers an equal value, what flags and names of methods mean, and `unit_text` of its definitions.
#![tactic(auto)]

mod expression;
mod flags;
mod lists;
mod method_names;
mod operator;
mod shape;
mod statement;
mod unit;
mod variable;
mod weights;

pub use expression::Exp;
pub use flags::{
    class_bits, field_bits, held_class, held_field, held_method, is_interface, method_bits,
};
pub use lists::{boxed_list, fitted};
pub use method_names::{is_constructor, is_initialiser};
pub use operator::Op;
pub use shape::Shape;
pub use statement::{Catch, Group, Stm};
pub use unit::{Body, FieldText, MethodText, Unit};
pub use variable::{Var, VarKind};
pub use weights::weight;
