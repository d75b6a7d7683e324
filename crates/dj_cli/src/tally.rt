//! What was told, in numbers.

ghost use Rattle.std.specs.Prelude.{◌≡◌, ◌+◌, ◌<◌, ◌^◌, ◌||◌, false, true};

/// Whether a line was told, and how many methods are printed and how many aren't.
#[derive(Clone, Copy)]
pub struct Tally {
    pub has_line: bool,
    pub printed: usize,
    pub refused: usize,
}

/// Nothing was told.
pub fn no_tally() -> Tally
    ensures tally { result ≡ record { has_line = false; printed = 0; refused = 0 } }
{
    Tally {
        has_line: false,
        printed: 0,
        refused: 0,
    }
}

/// A line was told, and no method is printed of so many.
pub fn line_tally(refused: usize) -> Tally
    ensures tally { result ≡ record { has_line = true; printed = 0; refused = refused } }
{
    Tally {
        has_line: true,
        printed: 0,
        refused,
    }
}

/// Both together.
pub fn both(first: Tally, second: Tally) -> Tally
    requires printed { first.printed + second.printed < 2 ^ 64 }
    requires refused { first.refused + second.refused < 2 ^ 64 }
    ensures has_line { result.has_line ≡ (first.has_line || second.has_line) }
    ensures printed { result.printed ≡ first.printed + second.printed }
    ensures refused { result.refused ≡ first.refused + second.refused }
{
    Tally {
        has_line: first.has_line | second.has_line,
        printed: first.printed + second.printed,
        refused: first.refused + second.refused,
    }
}
