//! Which body is printed of a method whose code is one block, and what keeps it from being had yet: definitions, and the law that the body shows what the code shows.
//! It stands on `dj_one_block_shown` for the law on one block, and on `dj_given` and `dj_known_world` for what is known where no cause is told and the world passes a test.
//! The layers above use the definitions, and the law `decompiled_bodies_show`.
#![tactic(auto)]

mod laws;

pub use laws::decompiled_bodies_show;
