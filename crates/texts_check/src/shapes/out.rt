//! Nodes and lists in brackets, with a space between two parts.

use std::alloc::{AllocError, Global};
use std::fmt;

/// A shape that is being written. Once memory is out it takes nothing more, and `into_text` tells so.
#[derive(Drop)]
pub struct Out {
    text: String,
    /// Whether no part stands yet behind the last opening bracket.
    fresh: bool,
    /// Whether memory is out.
    full: bool,
}

impl Out {
    pub fn new(alloc: Global) -> Out {
        Out {
            text: String::new(alloc),
            fresh: true,
            full: false,
        }
    }

    /// Writes a piece.
    fn put(&mut self, piece: &str) {
        if !self.full {
            self.full = self.text.push_str(piece).is_err();
        }
    }

    /// Separates the next part from the one before it.
    fn separate(&mut self) {
        if !self.fresh {
            self.put(" ");
        }
        self.fresh = false;
    }

    /// A keyword, an operator, or a part that is told as it is.
    pub fn word(&mut self, word: &str) {
        self.separate();
        self.put(word);
    }

    /// A name, a type, a number.
    pub fn part<T: fmt::Display>(&mut self, part: &T) {
        self.separate();
        if !self.full {
            self.full = write!(self.text, "{part}").is_err();
        }
    }

    /// Opens a list.
    pub fn open(&mut self) {
        self.separate();
        self.fresh = true;
        self.put("(");
    }

    /// Opens a node.
    pub fn node(&mut self, word: &str) {
        self.open();
        self.word(word);
    }

    /// Opens a node, and puts its first part.
    pub fn node_of<T: fmt::Display>(&mut self, word: &str, part: &T) {
        self.node(word);
        self.part(part);
    }

    /// Puts a node of one part.
    pub fn leaf<T: fmt::Display>(&mut self, word: &str, part: &T) {
        self.node_of(word, part);
        self.close();
    }

    /// Puts a name behind a dot.
    pub fn dotted<T: fmt::Display, N: fmt::Display>(&mut self, front: &T, name: &N) {
        self.node_of(".", front);
        self.part(name);
        self.close();
    }

    /// Closes the innermost list or node.
    pub fn close(&mut self) {
        self.fresh = false;
        self.put(")");
    }

    /// A list without parts.
    pub fn empty(&mut self) {
        self.word("()");
    }

    /// A part that isn't there.
    pub fn none(&mut self) {
        self.word("-");
    }

    /// What was written, where memory wasn't out.
    pub fn into_text(self) -> Result<String, AllocError> {
        if self.full {
            return Err(AllocError);
        }
        Ok(self.text)
    }
}
