//! The ways out of a method of one block mean what they should: what it returns, and what it throws.
//! It stands on `dj_exits` for what is asked of ways out, on `dj_member_nodes` for which operands go where, and on `dj_strict_entries` for what their values are.
//! The layers above use the law `lone_exits_mean`.
#![tactic(auto)]

mod laws;

pub use laws::lone_exits_mean;
