//! Which references, tags and frames go where: what the machine asks, and what Java asks (JVMS 4.10.1.2, 4.10.1.4).
//! It stands on `dj_frames` for tags and frames, on `dj_headers` for what stands above what, and on `dj_names` for types.
//! The layers above use `Goes` with `Laxly` and `Strictly`, `local_goes`, `reference_goes`, `frame_goes` and its parts `entries_go` and `locals_go`, each exact and without memory.
#![tactic(auto)]

mod frames;
mod goes;
mod relations;

pub use frames::{entries_go, frame_goes, locals_go};
pub use goes::{Goes, local_goes, reference_goes};
pub use relations::{Laxly, Strictly, is_unknown, superclass_of};
