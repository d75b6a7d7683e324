//! The names of constructors and static initialisers (JVMS 2.9).

ghost use Rattle.std.specs.Prelude.{◌≡◌};
ghost use Rattle.dj_names.specs.MethodNames.{is_constructor, is_initialiser};

use crate::units::Units;

/// `<init>`, in units.
const CONSTRUCTOR: [u16; 6] = [60, 105, 110, 105, 116, 62];

/// `<clinit>`, in units.
const INITIALISER: [u16; 8] = [60, 99, 108, 105, 110, 105, 116, 62];

/// Whether a name is that of a constructor.
pub fn is_constructor(name: &Units) -> bool
    ensures constructor { result ≡ is_constructor name.now }
{
    name.as_slice() == CONSTRUCTOR.as_slice()
}

/// Whether a name is that of a static initialiser.
pub fn is_initialiser(name: &Units) -> bool
    ensures initialiser { result ≡ is_initialiser name.now }
{
    name.as_slice() == INITIALISER.as_slice()
}
