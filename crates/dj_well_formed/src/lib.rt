//! Which units are well formed, so that the text of each is that of no other, as a test that takes no memory.
//! It stands on `dj_syntax` for the trees and the definition, and on `dj_names` for names and types.
//! The layer above uses `is_well_formed`, whose clause `exact` says that it decides `IsWellFormed`.
#![tactic(auto)]

mod expressions;
mod members;
mod names;
mod same;
mod statements;
mod unit;

pub use members::{has_no_result, takes_and_gives_nothing};
pub use names::{are_qualified, is_method_descriptor};
pub use statements::are_well_formed_stms;
pub use unit::is_well_formed;
