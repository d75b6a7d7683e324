//! Whether bytes are units in modified UTF-8, none of which is kept (JVMS 4.4.7).

ghost use Rattle.std.specs.Prelude.{◌≡◌, ◌⊎◌, ◌≤◌, ◌<◌, ◌+◌, ◌-◌, ◌*◌, [], ◌∷◌, length, IfSome, IsTrue};
ghost use Rattle.dj_pool.specs.PoolTable.{BeginsWithUnits};

/// Whether the bytes are a unit of one byte.
fn is_one(first: u8) -> bool
    ensures one { IsTrue result → (1 ≤ first) × (first ≤ 127) }
{
    (0x01..=0x7f).contains(&first)
}

/// Whether a byte may stand behind the first one of a unit.
fn is_later(byte: u8) -> bool
    ensures later { IsTrue result → (128 ≤ byte) × (byte ≤ 191) }
{
    (0x80..=0xbf).contains(&byte)
}

/// Whether the bytes are a unit of two bytes.
fn is_two(first: u8, second: u8) -> bool
    ensures two { IsTrue result → ((first ≡ 192) × (second ≡ 128)) ⊎ ((194 ≤ first) × (first ≤ 223) × (128 ≤ second) × (second ≤ 191)) }
{
    (first == 0xc0 && second == 0x80) || ((0xc2..=0xdf).contains(&first) && is_later(second))
}

/// Whether the bytes are a unit of three bytes.
fn is_three(first: u8, second: u8, third: u8) -> bool
    ensures three { IsTrue result → (224 ≤ first) × (first ≤ 239) × (128 ≤ second) × (second ≤ 191) × (128 ≤ third) × (third ≤ 191) × (160 ≤ second + (first - 224) * 64) }
{
    (0xe0..=0xef).contains(&first)
        && is_later(second)
        && is_later(third)
        && (first != 0xe0 || second >= 0xa0)
}

/// What follows a unit of three bytes that begins with these.
fn after_second(first: u8, second: u8, bytes: &[u8]) -> Option<&[u8]>
    ensures unit { IfSome result (λ rest. BeginsWithUnits (first ∷ second ∷ bytes.now) rest.now) }
    ensures shorter { IfSome result (λ rest. length rest.now < length bytes.now) }
{
    match bytes.split_first() {
        Some((third, rest)) => {
            if is_three(first, second, *third) {
                Some(rest)
            } else {
                None
            }
        }
        None => None,
    }
}

/// What follows a unit of two or three bytes that begins with this.
fn after_first(first: u8, bytes: &[u8]) -> Option<&[u8]>
    ensures unit { IfSome result (λ rest. BeginsWithUnits (first ∷ bytes.now) rest.now) }
    ensures shorter { IfSome result (λ rest. length rest.now < length bytes.now) }
{
    match bytes.split_first() {
        Some((second, rest)) => {
            if is_two(first, *second) {
                Some(rest)
            } else {
                after_second(first, *second, rest)
            }
        }
        None => None,
    }
}

/// What follows a unit that the bytes begin with.
fn after_unit(bytes: &[u8]) -> Option<&[u8]>
    ensures unit { IfSome result (λ rest. BeginsWithUnits bytes.now rest.now) }
    ensures shorter { IfSome result (λ rest. length rest.now < length bytes.now) }
{
    match bytes.split_first() {
        Some((first, rest)) => {
            if is_one(*first) {
                Some(rest)
            } else {
                after_first(*first, rest)
            }
        }
        None => None,
    }
}

/// Whether the bytes are found to be units.
pub fn are_units(bytes: &[u8]) -> bool
    ensures units { IsTrue result → BeginsWithUnits bytes.now [] }
{
    let mut left = bytes;
    while let Some(rest) = after_unit(left) {
        left = rest;
    }
    left.is_empty()
}
