//! How a block's instructions become expressions and statements, and that these show the same: definitions and laws.
//! It stands on `dj_bytecode` for what instructions do, on `dj_meaning` for what expressions and statements do, and on `dj_values` for outcomes.
//! The layers above use pending entries, what it is to show, and the law `spilled_expressions_show`.
#![tactic(auto)]

mod laws;

pub use laws::{expressions_depend_on_what_they_name, spilled_expressions_show};
