//! Runs the code of a method on arguments and answers: the program of the machine.
//! It stands on `dj_bytecode` for what code means, on `dj_operands` for what instructions make of values, on `dj_outside` for what the outside is asked and answers, on `dj_headers` for which class stands above which, and on the law of `dj_sound` for runs of typed code.
//! The layers above use `show_code`, whose answer is exactly the show that the definition gives (`show`), of a run that is never stuck where the code is typed (`never`).
#![tactic(auto)]

mod arrays;
mod calls;
mod classes;
mod families;
mod handlers;
mod locals;
mod members;
mod replies;
mod run;
mod running;
mod settling;
mod starts;
mod stepping;

pub use running::show_code;
