//! The reader of the one text of a unit.
//! It stands on `dj_parse`, which parses that text, on `dj_print`, which writes it, on `dj_well_formed`, and on `dj_syntax` for the trees.
//! The layers above use `read_unit`, which answers the unit whose text the bytes are, and the law that there is one at most.
#![tactic(auto)]

mod read;

pub use dj_grammar::units_have_one_text;
pub use read::{ReadUnitFault, read_unit};
