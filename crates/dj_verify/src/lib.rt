//! Type checking of a method's code by the frames that its class file gives (JVMS 4.10.1).
//! It stands on `dj_effects` and `dj_applying` for what instructions do to frames, on `dj_tags` for what goes where, on `dj_code` for code, and on `dj_headers`.
//! The layers above use `Verifier`, made once for many methods, of which it keeps the frames or none, `verify` for one, and `strict` for what Java asks besides.
#![tactic(auto)]

mod checking;
mod fault;
mod keeping;
mod landing;
mod padding;
mod reaching;
mod rooms;
mod rule;
mod strictly;
mod subject;
mod verifying;

pub use fault::VerifyFault;
pub use rule::Rule;
pub use strictly::strict;
pub use verifying::{Verifier, verify};
