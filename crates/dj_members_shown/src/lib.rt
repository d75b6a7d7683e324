//! What instructions on fields, arrays, classes and methods do, and what the expressions and statements for them mean, is one: definitions and laws.
//! It stands on `dj_bytecode` for the one and on `dj_meaning` for the other, and on `dj_widened` for what stays where other classes run.
//! The layers above use the laws: what is written for such an instruction shows what it does, and is lawful.
#![tactic(auto)]

mod laws;

pub use laws::{
    arguments_choose_alike, births_show, calls_show, casts_are_lawful, casts_go, classes_show,
    frames_say_types, members_can_be_told, members_meant_are_found, operands_are_wanted,
    operands_can_be_tested, pushes_show, results_are_held, stores_show,
};
