//! The kinds of frames in a StackMapTable, as one table (JVMS 4.7.4).

ghost use Rattle.std.specs.Prelude.{◌≡◌};
ghost use Rattle.dj_stack_map.specs.StackMap.{near, far, form_of};

/// How many tags are written.
#[derive(Clone, Copy)]
pub enum Count {
    Given(u8),
    /// Their number stands before them, in two bytes.
    Counted,
}

/// What the locals of a frame are, by those of the frame before.
#[derive(Clone, Copy)]
pub enum Change {
    /// The same.
    Keeps,
    /// The same without so many last values.
    Chops(u8),
    /// The same with those behind them that are written.
    Appends,
    /// Those that are written.
    Replaces,
}

/// How a frame of some kind is written.
#[derive(Clone, Copy)]
pub struct Form {
    /// The delta of its offset, None where it stands behind the kind in two bytes.
    pub delta: Option<u8>,
    pub change: Change,
    pub locals: Count,
    pub stack: Count,
}

/// A frame whose kind has the delta in it and whose locals stay the same.
fn near(delta: u8, stack: u8) -> Form
    ensures form { result ≡ near delta stack }
{
    Form {
        delta: Some(delta),
        change: Change::Keeps,
        locals: Count::Given(0),
        stack: Count::Given(stack),
    }
}

/// A frame whose delta stands behind its kind.
fn far(change: Change, locals: Count, stack: Count) -> Form
    ensures form { result ≡ far change locals stack }
{
    Form {
        delta: None,
        change,
        locals,
        stack,
    }
}

/// How a frame of a kind that isn't reserved is written; 128 to 246 are.
pub fn form_of(kind: u8) -> Form
    ensures form { result ≡ form_of kind }
{
    match kind {
        0..=63 => near(kind, 0),
        64..=127 => near(kind - 64, 1),
        128..=247 => far(Change::Keeps, Count::Given(0), Count::Given(1)),
        248..=250 => far(Change::Chops(251 - kind), Count::Given(0), Count::Given(0)),
        251 => far(Change::Keeps, Count::Given(0), Count::Given(0)),
        252..=254 => far(Change::Appends, Count::Given(kind - 251), Count::Given(0)),
        255 => far(Change::Replaces, Count::Counted, Count::Counted),
    }
}
