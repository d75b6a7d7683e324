//! Units that are still to be read, from front to back.

ghost use Rattle.std.specs.Prelude.{◌≡◌, ℕ, List, [], ◌∷◌, length, MatchOption, IsTrue, ◌↔◌};

use std::marker::Model;

/// Where a reader stands in a list of units.
#[derive(Drop)]
pub struct Unread<'a> {
    rest: &'a [u16],
}

impl<'a> Model for Unread<'a> {
    ghost use Rattle.std.specs.Prelude.{List, ℕ};

    ghost Value = { List ℕ };

    ghost view = { λ u. u.rest.now };
}

impl<'a> Unread<'a> {
    /// All of the units.
    pub fn new(units: &'a [u16]) -> Unread<'a>
        ensures units { result ≡ units.now }
    {
        Unread { rest: units }
    }

    /// How many units are left.
    pub fn len(&self) -> usize
        ensures left { result ≡ length self.now }
    {
        self.rest.len()
    }

    /// The unit at hand.
    pub fn peek(&self) -> Option<u16>
        ensures at_hand { MatchOption result (self.now ≡ []) (λ unit. (rest : List ℕ) × (self.now ≡ unit ∷ rest)) }
    {
        self.rest.first().copied()
    }

    /// Whether this unit is at hand.
    pub fn is_at(&self, unit: u16) -> bool
        ensures at_hand { IsTrue result ↔ ((rest : List ℕ) × (self.now ≡ unit ∷ rest)) }
    {
        self.peek() == Some(unit)
    }

    /// Goes past the unit at hand, and answers it.
    pub fn next(&mut self) -> Option<u16>
        ensures next { MatchOption result ((self.old ≡ []) × (self.new ≡ [])) (λ unit. self.old ≡ unit ∷ self.new) }
    {
        let (unit, rest) = self.rest.split_first()?;
        self.rest = rest;
        Some(*unit)
    }
}
