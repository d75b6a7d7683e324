//! How deep a text nests, found in one pass over its words.

ghost use Rattle.std.specs.Prelude.{◌≡◌, ◌≤◌, ◌<◌, ◌↔◌, IfOk, IsTrue, OnOk};
ghost use Rattle.dj_depth.specs.declared.effects.Effect.TheVariants.{Passes};
ghost use Rattle.dj_depth.specs.Depth.{IsDeep, after, after_bracket, after_dot, after_word, begun, bracketed, closed, counted, depth, is_in_body, joined, labelled, most_depth, no_words, opened, opened_within, passed, restarted, separated, unwrapped, wrapped};

use crate::effects::{Behind, Effect, effect_of_word};
use crate::level::Level;
use dj_tokens::Reader;
use std::alloc::{AllocError, Global};
use std::marker::Model;

/// The depth above which a text is deep.
const MOST_DEPTH: usize = 10_240;

/// Whether the text nests deeper than trees may. It takes room for what is open, which the bound limits.
pub fn is_deep(alloc: Global, text: &[u8]) -> Result<bool, AllocError>
    ensures deep { IfOk result (λ deep. IsTrue deep ↔ IsDeep text.now) }
{
    let mut reader = Reader::new(text);
    let mut nesting = Nesting::new(alloc);
    while let Some(word) = reader.take_next() {
        if nesting.read(effect_of_word(word))? {
            return Ok(true);
        }
    }
    Ok(false)
}

/// How far words nest.
#[derive(Drop)]
struct Nesting {
    labels: usize,
    /// From the outermost list in, where contracts see them from the innermost out.
    outer: Vec<usize>,
    outer_depth: usize,
    level: Level,
    /// From the outermost parenthesis in, where contracts see them from the innermost out.
    around: Vec<Level>,
    around_words: usize,
    next_label: usize,
    last: Behind,
}

impl Model for Nesting {
    ghost use Rattle.std.specs.Prelude.{◌≡◌, ◌≤◌, ◌+◌, ◌*◌, reverse};
    ghost use Rattle.dj_depth.specs.Depth as depths;
    ghost use Rattle.dj_depth.specs.Depth.{depth_of, words_of};

    ghost Value = { depths.Nesting };

    ghost view = { λ nesting. record { labels = nesting.labels; outer = reverse nesting.outer.items; level = nesting.level; around = reverse nesting.around.items; next_label = nesting.next_label; last = nesting.last } };

    ghost invariant = { λ nesting. (nesting.outer_depth ≡ depth_of (reverse nesting.outer.items)) × (nesting.around_words ≡ words_of (reverse nesting.around.items)) × (nesting.next_label * 2 ≤ nesting.labels + 2) };
}

impl Nesting {
    /// No words.
    fn new(alloc: Global) -> Nesting
        ensures none { result ≡ no_words }
    {
        Nesting {
            labels: 0,
            outer: Vec::new(alloc),
            outer_depth: 0,
            level: Level::empty(),
            around: Vec::new(alloc),
            around_words: 0,
            next_label: 1,
            last: Behind::Other,
        }
    }

    /// Whether words nest too deep.
    #[inline(always)]
    fn is_deep(&self) -> bool
        ensures deep { IsTrue result ↔ (most_depth < depth self.now) }
    {
        let open = self.outer_depth.saturating_add(self.labels);
        let around = open.saturating_add(self.around_words);
        let made = self.level.words.saturating_add(self.level.inner);
        around.saturating_add(self.level.ended.max(made)) > MOST_DEPTH
    }

    /// A word more, given what it does, and whether words nest too deep then. One of which no tree is
    /// made changes no depth.
    #[inline(always)]
    fn read(&mut self, effect: Effect) -> Result<bool, AllocError>
        requires shallow { depth self.old ≤ most_depth }
        ensures read { OnOk result (self.new ≡ after effect self.old) }
        ensures deep { IfOk result (λ deep. IsTrue deep ↔ (most_depth < depth self.new)) }
    {
        match self.last {
            Behind::Other => self.read_behind_word(effect)?,
            Behind::Dot => self.read_behind_dot(effect)?,
            Behind::Bracket => self.read_behind_bracket(effect)?,
        }
        Ok(self.is_deep_behind(effect))
    }

    /// Whether words nest too deep behind one that does this, given that those before it don't.
    fn is_deep_behind(&self, effect: Effect) -> bool
        requires shallow { effect ≡ Passes → depth self.now ≤ most_depth }
        ensures deep { IsTrue result ↔ (most_depth < depth self.now) }
    {
        match effect {
            Effect::Passes => false,
            Effect::Counts
            | Effect::Joins
            | Effect::Wraps
            | Effect::Brackets
            | Effect::Unwraps
            | Effect::Parts
            | Effect::Labels
            | Effect::Starts
            | Effect::Opens
            | Effect::Closes
            | Effect::Ends => self.is_deep(),
        }
    }

    /// A word more, behind another than a dot or an opening bracket.
    #[inline(always)]
    fn read_behind_word(&mut self, effect: Effect) -> Result<(), AllocError>
        requires shallow { depth self.old ≤ most_depth }
        ensures read { OnOk result (self.new ≡ after_word effect self.old) }
    {
        match effect {
            Effect::Passes => self.pass(),
            Effect::Counts => self.count(),
            Effect::Joins => self.join(),
            Effect::Wraps => self.wrap()?,
            Effect::Brackets => self.bracket()?,
            Effect::Unwraps => self.unwrap(),
            Effect::Parts => self.separate(),
            Effect::Labels => self.label(),
            Effect::Starts => self.restart(),
            Effect::Opens => self.open()?,
            Effect::Closes => self.close(),
            Effect::Ends => self.begin(),
        }
        Ok(())
    }

    /// A word more, behind a dot.
    fn read_behind_dot(&mut self, effect: Effect) -> Result<(), AllocError>
        requires shallow { depth self.old ≤ most_depth }
        ensures read { OnOk result (self.new ≡ after_dot effect self.old) }
    {
        match effect {
            Effect::Passes
            | Effect::Counts
            | Effect::Joins
            | Effect::Wraps
            | Effect::Brackets
            | Effect::Unwraps
            | Effect::Parts => self.pass(),
            Effect::Labels => self.label(),
            Effect::Opens => self.open_within()?,
            Effect::Starts | Effect::Closes | Effect::Ends => self.restart(),
        }
        Ok(())
    }

    /// A word more, behind an opening bracket.
    fn read_behind_bracket(&mut self, effect: Effect) -> Result<(), AllocError>
        requires shallow { depth self.old ≤ most_depth }
        ensures read { OnOk result (self.new ≡ after_bracket effect self.old) }
    {
        match effect {
            Effect::Passes | Effect::Joins | Effect::Brackets | Effect::Parts => self.pass(),
            Effect::Counts => self.count(),
            Effect::Wraps => self.wrap()?,
            Effect::Unwraps => self.unwrap(),
            Effect::Labels => self.label(),
            Effect::Opens => self.open_within()?,
            Effect::Starts | Effect::Closes | Effect::Ends => self.restart(),
        }
        Ok(())
    }

    /// A word that counts nothing.
    #[inline(always)]
    fn pass(&mut self)
        ensures passed { self.new ≡ passed self.old }
    {
        self.last = Behind::Other;
    }

    /// A word that counts, behind which a colon ends no label.
    #[inline(always)]
    fn count(&mut self)
        requires shallow { depth self.old ≤ most_depth }
        ensures counted { self.new ≡ counted self.old }
    {
        self.level = self.level.with_word();
        self.next_label = 0;
        self.last = Behind::Other;
    }

    /// Whether a class's list and a method's are around.
    fn is_in_body(&self) -> bool
        ensures body { result ≡ is_in_body self.now.outer }
    {
        self.outer.len() >= 2
    }

    /// A dot.
    fn join(&mut self)
        requires shallow { depth self.old ≤ most_depth }
        ensures joined { self.new ≡ joined self.old }
    {
        if self.is_in_body() {
            self.level = self.level.with_word();
        }
        self.last = Behind::Dot;
    }

    /// A parenthesis opens, behind which a colon ends no label.
    #[inline(always)]
    fn wrap(&mut self) -> Result<(), AllocError>
        requires shallow { depth self.old ≤ most_depth }
        ensures wrapped { OnOk result (self.new ≡ wrapped self.old) }
    {
        self.bracket()?;
        self.next_label = 0;
        self.last = Behind::Other;
        Ok(())
    }

    /// A bracket opens.
    #[inline(always)]
    fn bracket(&mut self) -> Result<(), AllocError>
        requires shallow { depth self.old ≤ most_depth }
        ensures bracketed { OnOk result (self.new ≡ bracketed self.old) }
    {
        let level = self.level.with_word();
        self.around.push(level)?;
        self.around_words += level.words;
        self.level = Level::empty();
        self.last = Behind::Bracket;
        Ok(())
    }

    /// A parenthesis or bracket closes, where one is open.
    #[inline(always)]
    fn unwrap(&mut self)
        requires shallow { depth self.old ≤ most_depth }
        ensures unwrapped { self.new ≡ unwrapped self.old.around self.old }
    {
        if let Some(level) = self.around.pop() {
            self.around_words -= level.words;
            self.level = level.with_inner(self.level.height());
        }
        self.last = Behind::Other;
    }

    /// A comma.
    fn separate(&mut self)
        requires shallow { depth self.old ≤ most_depth }
        ensures separated { self.new ≡ separated self.old }
    {
        self.level = self.level.parted();
        self.last = Behind::Other;
    }

    /// A colon, which may end a label.
    fn label(&mut self)
        requires shallow { depth self.old ≤ most_depth }
        ensures labelled { self.new ≡ labelled self.old }
    {
        self.labels = self.labels.max(self.next_label * 2);
        self.next_label += 1;
        self.last = Behind::Other;
    }

    /// A statement goes on with another, which may have labels.
    fn restart(&mut self)
        ensures restarted { self.new ≡ restarted self.old }
    {
        self.next_label = 1;
        self.last = Behind::Other;
    }

    /// A statement begins.
    fn begin(&mut self)
        ensures begun { self.new ≡ begun self.old.labels self.old.outer }
    {
        self.level = Level::empty();
        self.around.clear();
        self.around_words = 0;
        self.restart();
    }

    /// A list opens.
    fn open(&mut self) -> Result<(), AllocError>
        requires shallow { depth self.old ≤ most_depth }
        ensures opened { OnOk result (self.new ≡ opened self.old) }
    {
        self.open_within()?;
        self.begin();
        Ok(())
    }

    /// A list may open, in what goes on.
    fn open_within(&mut self) -> Result<(), AllocError>
        requires shallow { depth self.old ≤ most_depth }
        ensures opened { OnOk result (self.new ≡ opened_within self.old) }
    {
        self.outer.push(self.labels)?;
        self.outer_depth += self.labels + 2;
        self.labels = 0;
        self.next_label = 1;
        self.last = Behind::Other;
        Ok(())
    }

    /// A list closes, where one is open.
    fn close(&mut self)
        ensures closed { self.new ≡ closed self.old.outer self.old }
    {
        if let Some(labels) = self.outer.pop() {
            self.outer_depth -= labels + 2;
            self.labels = labels;
            self.next_label = 1;
        }
        self.begin();
    }
}
