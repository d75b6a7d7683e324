//! Each instruction of a block may stand where it does: from the table of frames, where blocks start, and births that can be written.
//! It stands on `dj_rebuildable` for what an instruction must be that stands in a block, on `dj_blocks_shown` for where blocks lead, and on `dj_starts` for births.
//! The layers above use the law `blocks_may_stand`.
#![tactic(auto)]

mod laws;

pub use laws::blocks_may_stand;
