//! What stands for the instructions of a method, on numbers, members, arrays and classes, does what they do, whatever classes run: a law.
//! It stands on `dj_member_nodes` for what stands for each, and on `dj_members_shown` for what members mean.
//! The layers above use the law `member_ways_hold`, which gives what the law on blocks of `dj_rebuilt` asks of them.
#![tactic(auto)]

mod laws;

pub use laws::member_ways_hold;
