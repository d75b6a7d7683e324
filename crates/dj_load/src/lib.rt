//! The files of an order, loaded by name and read, and the world that they make.
//! It stands on `dj_outer` for files, on `dj_class` for what their bytes are, and on `dj_world` for the world.
//! The layer above uses `load_order` (`loaded`, `read`, `asked`) and `read_files` (`read`).
#![tactic(auto)]

mod loading;
mod loads;
mod reading;

pub use loading::{Library, OrderFiles, load_order};
pub use loads::LoadStop;
pub use reading::{Found, FoundFiles, read_files};
