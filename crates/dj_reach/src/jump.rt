//! Jumps (JLS 14.15, 14.16).

ghost use Rattle.std.specs.Prelude.{◌≡◌};
ghost use Rattle.dj_reach.specs.Jumps.{is_jump_to, is_one_of, is_same_jump};

/// A break or a continue, with the label that it names.
#[derive(Clone, Copy, PartialEq, Eq)]
pub enum Jump {
    Break(u32),
    Continue(u32),
}

impl Jump {
    /// Whether it is a jump like another.
    pub fn is_same(self, other: Jump) -> bool
        ensures same { result ≡ is_same_jump self other }
    {
        match (self, other) {
            (Jump::Break(first), Jump::Break(second))
            | (Jump::Continue(first), Jump::Continue(second)) => first == second,
            (Jump::Break(_), Jump::Continue(_)) | (Jump::Continue(_), Jump::Break(_)) => false,
        }
    }

    /// Whether it names a label.
    pub fn is_to(self, label: u32) -> bool
        ensures to { result ≡ is_jump_to label self }
    {
        match self {
            Jump::Break(named) | Jump::Continue(named) => named == label,
        }
    }
}

/// Whether a jump is one of these.
pub fn is_one_of(wanted: Jump, jumps: &[Jump]) -> bool
    ensures one { result ≡ is_one_of wanted jumps.now }
{
    for jump in jumps {
        if jump.is_same(wanted) {
            return true;
        }
    }
    false
}
