//! What a run asks of the outside and is told, the exceptions that the machine throws by itself, and why a run stops without a result.
//! It stands on `dj_values` for actions, answers and outcomes, and on `dj_headers` for which answers an action can have.
//! The programs of code and of source above use `Outside`, whose `ask` and `trap` come to what `outside` of the definition comes to, and `Stop`.
#![tactic(auto)]

mod outside;
mod stop;
mod trap;

pub use outside::Outside;
pub use stop::Stop;
pub use trap::{Trap, class_name};
