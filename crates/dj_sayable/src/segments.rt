//! The parts of a class's name.

ghost use Rattle.std.specs.Prelude.{◌≡◌, ◌↔◌, ◌==◌, ◌++◌, ◌≤◌, length, position, take, IsTrue};
ghost use Rattle.dj_kinds.specs.Access.{package_of};
ghost use Rattle.dj_sayable.specs.Saying.{HasPackage, first_segment};

/// What stands between segments.
pub const SLASH: u16 = 0x2f;

/// Whether a class is in a package.
pub fn has_package(name: &[u16]) -> bool
    ensures package { IsTrue result ↔ HasPackage name.now }
{
    name.contains(&SLASH)
}

/// The place of the first `/`.
fn slash_at(name: &[u16]) -> Option<usize>
    ensures place { result ≡ position (λ unit. unit == 47) name.now }
{
    name.iter().position(|unit| *unit == SLASH)
}

/// The units before the first `/`, or all of them.
pub fn first_segment(name: &[u16]) -> &[u16]
    ensures first { result.now ≡ first_segment name.now }
{
    match slash_at(name) {
        Some(end) => &name[..end],
        None => name,
    }
}

/// How many units a name has up to its last `/`.
fn package_length(name: &[u16]) -> usize
    ensures package { take result name.now ≡ package_of name.now }
    ensures within { result ≤ length name.now }
{
    let mut length = 0;
    for (at, unit) in name.iter().enumerate() {
        if *unit == SLASH {
            length = at + 1;
        }
    }
    length
}

/// The units of a name up to its last `/`.
pub fn package_of(name: &[u16]) -> &[u16]
    ensures package { result.now ≡ package_of name.now }
{
    &name[..package_length(name)]
}

/// The units of a name behind its last `/`, or all of them.
pub fn simple_name(name: &[u16]) -> &[u16]
    ensures simple { package_of name.now ++ result.now ≡ name.now }
{
    &name[package_length(name)..]
}
