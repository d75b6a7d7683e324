//! The names of classes (JVMS 4.2.1, 4.2.2).

ghost use Rattle.std.specs.Prelude.{◌↔◌, All, Contains, IsTrue, codes};
ghost use Rattle.dj_names.specs.ClassNames.{IsUnqualifiedName, segments, IsClassName};

const SLASH: u16 = 0x2f;

/// Whether the unit may stand in an unqualified name.
fn is_plain(unit: u16) -> bool
    ensures plain { IsTrue result ↔ ¬ Contains (codes ".;[/") unit }
{
    ![0x2e, 0x3b, 0x5b, SLASH].contains(&unit)
}

/// Whether each unit may stand in an unqualified name.
fn are_plain(units: &[u16]) -> bool
    ensures plain { IsTrue result ↔ All (λ unit. ¬ Contains (codes ".;[/") unit) units.now }
{
    for unit in units {
        if !is_plain(*unit) {
            return false;
        }
    }
    true
}

/// Whether the units are an unqualified name.
fn is_unqualified(units: &[u16]) -> bool
    ensures unqualified { IsTrue result ↔ IsUnqualifiedName units.now }
{
    !units.is_empty() && are_plain(units)
}

/// Whether each segment is an unqualified name.
fn are_unqualified(name: &[u16]) -> bool
    ensures unqualified { IsTrue result ↔ All IsUnqualifiedName (segments name.now) }
{
    name.split(|unit| *unit == SLASH)
        .all(|segment| is_unqualified(segment))
}

/// Whether the units are the name of a class.
pub fn is_class_name(name: &[u16]) -> bool
    ensures name { IsTrue result ↔ IsClassName name.now }
{
    are_unqualified(name)
}
