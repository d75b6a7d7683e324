//! Where statements stand.

ghost use Rattle.dj_names.specs.Types.{view_descriptor};

use dj_checked::Site;
use dj_names::Descriptor;

/// What stands around the statements of a body: what names in them mean, the descriptor of the method,
/// and whether it is a constructor.
#[derive(Clone, Copy)]
pub struct Around<'a> {
    pub site: Site<'a>,
    pub descriptor: &'a Descriptor,
    pub constructs: bool,
}

/// Where a statement stands: at the beginning of a body, right behind a label, or elsewhere.
#[derive(Clone, Copy)]
pub enum Position {
    First,
    Behind(u32),
    Elsewhere,
}
