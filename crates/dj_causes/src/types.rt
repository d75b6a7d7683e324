//! The classes that types name.

ghost use Rattle.std.specs.Prelude.{◌≡◌};
ghost use Rattle.std.specs.Option.{option_copied};
ghost use Rattle.dj_names.specs.Types.{view_type};
ghost use Rattle.dj_world.specs.Named.{class_of};

use dj_names::{ClassName, JType};

/// The class that a type names, of an array that of its innermost elements.
pub fn class_of(kind: &JType) -> Option<&ClassName>
    ensures class { option_copied result ≡ class_of (view_type kind.now) }
{
    match kind {
        JType::Boolean => None,
        JType::Byte => None,
        JType::Char => None,
        JType::Short => None,
        JType::Int => None,
        JType::Long => None,
        JType::Float => None,
        JType::Double => None,
        JType::Class(name) => Some(name),
        JType::Array(element) => class_of(element.get()),
    }
}
