//! Whether Java accepts an expression, and else the first rule that it breaks (JLS 15).
//! It stands on `dj_typing` for the rules, on `dj_static` for types and for what names and calls mean, and on `dj_faults` for faults.
//! The layer above uses `pass_exp`, `pass_exps` and `pass_effect` with `Walk` for the expressions of statements, and the tests of names and types for the statements; `check_expression` judges one expression alone.
#![tactic(auto)]

mod calls;
mod casting;
mod check;
mod effects;
mod expressions;
mod given;
mod leaves;
mod operands;
mod parts;
mod site;
mod supers;
mod walk;
mod whole;

pub use calls::is_meant;
pub use casting::{has_flag, is_reference, is_type, may_be, may_be_of, may_cast};
pub use check::check_expression;
pub use effects::pass_effect;
pub use expressions::{pass_exp, pass_exps};
pub use given::{
    construct_target, copied, is_typed, object_type, plain, selected_type, static_type,
};
pub use operands::{Test, goes, if_of};
pub use site::{Site, can_name, may_name, may_name_member, may_name_type};
pub use supers::{lists, own_interfaces};
pub use walk::Walk;
pub use whole::{is_whole_static, is_whole_type};
