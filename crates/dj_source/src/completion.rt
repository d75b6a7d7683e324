//! How statements complete, and where they stand (JLS 14.1).

ghost use Rattle.std.specs.Prelude.{◌≡◌};
ghost use Rattle.dj_meaning.specs.Completions as spec;
ghost use Rattle.dj_meaning.specs.Statements.{label_at};
ghost use Rattle.dj_source.specs.Running.{view_place};

use dj_values::Value;

/// How a statement completes: it goes on, jumps to a label, returns, or returns otherwise than its
/// method does.
#[derive(Drop)]
pub enum Completion {
    Normal,
    Break(u32),
    Continue(u32),
    Return(Option<Value>),
    Misfit,
}

/// Where a statement stands: at the beginning of a body, right behind a label, or elsewhere.
#[derive(Clone, Copy)]
pub enum Place {
    First,
    Behind(u32),
    Elsewhere,
}

impl Place {
    /// Whether a label is the one right before the statement.
    pub fn is_own(self, label: u32) -> bool
        ensures own { result ≡ spec.is_own (label_at (view_place self)) label }
    {
        match self {
            Place::Behind(own) => label == own,
            Place::First | Place::Elsewhere => false,
        }
    }
}
