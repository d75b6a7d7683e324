//! How high what is read of a statement is, in it or in a parenthesis or bracket of it.

ghost use Rattle.std.specs.Prelude.{◌≡◌, ◌+◌, ◌<◌, ◌^◌};
ghost use Rattle.dj_depth.specs.Depth.{empty, height, parted, with_inner, with_word};

/// What is read in a statement, a parenthesis or a bracket.
#[derive(Clone, Copy)]
pub struct Level {
    /// The height of what its commas have ended, at most.
    pub ended: usize,
    /// How many words count since then.
    pub words: usize,
    /// The height of what has closed in it since then, at most.
    pub inner: usize,
}

impl Level {
    /// Nothing is read.
    pub fn empty() -> Level
        ensures empty { result ≡ empty }
    {
        Level {
            ended: 0,
            words: 0,
            inner: 0,
        }
    }

    /// How high what is read is, at most.
    pub fn height(self) -> usize
        requires fits { height self < 2 ^ 64 }
        ensures height { result ≡ height self }
    {
        self.ended.max(self.words + self.inner)
    }

    /// A word more that counts.
    pub fn with_word(self) -> Level
        requires fits { height self + 1 < 2 ^ 64 }
        ensures more { result ≡ with_word self }
    {
        Level {
            words: self.words + 1,
            ..self
        }
    }

    /// A parenthesis or bracket closes, in which what was read is so high.
    pub fn with_inner(self, high: usize) -> Level
        ensures closed { result ≡ with_inner high self }
    {
        Level {
            inner: self.inner.max(high),
            ..self
        }
    }

    /// A comma ends what was read.
    pub fn parted(self) -> Level
        requires fits { height self < 2 ^ 64 }
        ensures parted { result ≡ parted self }
    {
        Level {
            ended: self.height(),
            words: 0,
            inner: 0,
        }
    }
}
