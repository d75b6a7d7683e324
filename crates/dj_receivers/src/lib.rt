//! On which calls the receiver is `this`, on each way by which control comes there (JLS 15.12.4.1).
//! It stands on `dj_starts` for the ways of control, on `dj_applying` and `dj_effects` for what instructions do to the stack, and on `dj_code` for code.
//! The layers above use `calls_on_this`, which is exact both ways, and `place_of`, `pass_of`, `form_at` and `calls_own`.
#![tactic(auto)]

mod bits;
mod calls;
mod joins;
mod marking;
mod own_calls;
mod passing;
mod places;
mod walking;

pub use calls::{calls_on_this, is_on_this};
pub use dj_applying::Form;
pub use own_calls::{calls_own, is_on_begun, special_of};
pub use passing::{Pass, count_of, form_at, pass_of};
pub use places::place_of;
