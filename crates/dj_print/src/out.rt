//! What text is printed to: memory that grows, a sink, or bytes that it is compared with.

ghost use Rattle.std.specs.Prelude.{◌≡◌, ◌++◌, ℕ, List, [], MatchOption};

use dj_outer::{Failed, Sink};
use std::alloc::Global;

/// What text is printed to. Once it couldn't take a piece it takes nothing more, and whoever made it
/// asks it in the end whether it took all. `prints` says what it took of a text.
pub trait Out {
    ghost prints: { Self → Self → List ℕ → Type 0 };

    /// Takes a piece.
    fn put(&mut self, piece: &[u8])
        ensures prints { prints self.old self.new piece.now };

    ghost nothing: { (out : Self) → prints out out [] };

    ghost then: { (old between new : Self) (first second : List ℕ) → prints old between first → prints between new second → prints old new (first ++ second) };
}

/// Memory, which is full where it can't grow.
pub struct Memory {
    pub bytes: Vec<u8>,
    pub full: bool,
}

impl Memory {
    /// Memory that holds nothing.
    pub fn new(alloc: Global) -> Memory
        ensures empty { result.bytes.items ≡ [] }
    {
        Memory {
            bytes: Vec::new(alloc),
            full: false,
        }
    }
}

impl Out for Memory {
    ghost use Rattle.dj_print.specs.Outs.{Grows};
    ghost use Rattle.dj_print.specs.OutLaws.{grows-nothing, grows-then};

    ghost prints = { λ old new text. Grows old.full new.full old.bytes.items new.bytes.items text };

    fn put(&mut self, piece: &[u8]) {
        if self.full {
            return;
        }
        if let Err(_) = self.bytes.extend_from_slice(piece) {
            self.full = true;
        }
    }

    ghost nothing = { λ out. grows-nothing out.full out.bytes.items };

    ghost then = { λ old between new first second one two. grows-then one two };
}

/// A sink, which is stopped where a put failed.
pub struct Told<'a, T> {
    pub sink: &'a mut T,
    pub stopped: bool,
}

impl<T: Sink> Out for Told<'_, T> {
    ghost use Rattle.dj_print.specs.Outs.{Tells};
    ghost use Rattle.dj_print.specs.OutLaws.{tells-nothing, tells-then};
    ghost use Rattle.std.proofs.Common.{refl, ◌∙◌};

    ghost prints = { λ old new text.
        Tells old.stopped new.stopped (T.taken old.sink.now) (T.taken new.sink.now) (T.faults old.sink.now) (T.faults new.sink.now) text
        × (new.sink.ghost_name ≡ old.sink.ghost_name) };

    fn put(&mut self, piece: &[u8]) {
        if self.stopped {
            return;
        }
        if let Err(Failed) = self.sink.put(piece) {
            self.stopped = true;
        }
    }

    ghost nothing = { λ out. (tells-nothing out.stopped (T.taken out.sink.now) (T.faults out.sink.now), refl) };

    ghost then = { λ old between new first second one two. (tells-then one.0 two.0, two.1 ∙ one.1) };
}

/// Bytes that a text is compared with: what is left of them behind it, until they differ.
pub struct Compared<'a> {
    pub left: &'a [u8],
    pub differs: bool,
}

impl Out for Compared<'_> {
    ghost use Rattle.dj_print.specs.Outs.{Compares};
    ghost use Rattle.dj_print.specs.OutLaws.{compares-nothing, compares-then};

    ghost prints = { λ old new text. Compares old.differs new.differs old.left.now new.left.now text };

    fn put(&mut self, piece: &[u8]) {
        if self.differs {
            return;
        }
        match behind(self.left, piece) {
            Some(left) => self.left = left,
            None => self.differs = true,
        }
    }

    ghost nothing = { λ out. compares-nothing out.differs out.left.now };

    ghost then = { λ old between new first second one two. compares-then one two };
}

/// What is left of bytes behind a piece, where they begin with it.
fn behind<'a>(bytes: &'a [u8], piece: &[u8]) -> Option<&'a [u8]>
    ensures left { MatchOption result ((rest : List ℕ) → ¬ (bytes.now ≡ piece.now ++ rest)) (λ left. bytes.now ≡ piece.now ++ left.now) }
{
    bytes.strip_prefix(piece)
}
