//! How control leaves a block that is rebuilt, which numbers its own variables have, and what straight code is rebuilt to: definitions and laws.
//! It stands on `dj_rebuilt` for pending entries, on `dj_rebuildable` for what is known of them, and on `dj_straight` for straight code.
//! The layers above use the laws: exits have an answer and show, numbers of blocks stay apart, straight methods are one return.
#![tactic(auto)]

mod laws;

pub use laws::{
    births_are_calm, exits_are_rebuilt, exits_show, numbers_stay_apart, straight_blocks_return,
};
