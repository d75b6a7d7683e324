//! Constants of fields, and which of them a text can show (JVMS 4.7.2).

ghost use Rattle.std.specs.Prelude.{◌≡◌, ◌↔◌, IsTrue, codes};
ghost use Rattle.dj_names.specs.Types.{Class, view_type};
ghost use Rattle.dj_class.specs.Views.{view_field};
ghost use Rattle.dj_causes.specs.ClassCauses.{IsFloating, HasConstant};
ghost use Rattle.dj_causes.specs.FieldCauses.{IsInRange, IsShowable, HasWrongConstant};

use dj_names::{Constant, Field, JType, is_word};

const STATIC: u16 = 0x0008;

const FINAL: u16 = 0x0010;

/// Whether a constant is a float or a double.
fn is_floating(constant: &Constant) -> bool
    ensures floating { IsTrue result ↔ IsFloating constant.now }
{
    match constant {
        Constant::Int(_) => false,
        Constant::Long(_) => false,
        Constant::Text(_) => false,
        Constant::Float(_) => true,
        Constant::Double(_) => true,
    }
}

/// Whether a field is static and has a constant that is no float and no double.
fn has_constant(field: &Field) -> bool
    ensures constant { IsTrue result ↔ HasConstant (view_field field.now) }
{
    match &field.constant {
        Some(constant) => field.flags & STATIC != 0 && !is_floating(constant),
        None => false,
    }
}

/// Whether a field has no constant that counts.
pub fn lacks_constant(field: &Field) -> bool
    ensures lacks { IsTrue result ↔ ¬ HasConstant (view_field field.now) }
{
    !has_constant(field)
}

/// Whether a field of a type may have an int.
fn is_in_range(kind: &JType, number: i32) -> bool
    ensures range { IsTrue result ↔ IsInRange (view_type kind.now) number }
{
    match kind {
        JType::Boolean => 0 <= number && number <= 1,
        JType::Byte => -128 <= number && number <= 127,
        JType::Char => 0 <= number && number <= 65535,
        JType::Short => -32768 <= number && number <= 32767,
        JType::Int => true,
        JType::Long => false,
        JType::Float => false,
        JType::Double => false,
        JType::Class(_) => false,
        JType::Array(_) => false,
    }
}

/// Whether a type is that of texts.
fn is_string(kind: &JType) -> bool
    ensures string { IsTrue result ↔ (view_type kind.now ≡ Class (codes "java/lang/String")) }
{
    matches!(kind, JType::Class(name) if is_word(name.as_slice(), "java/lang/String"))
}

/// Whether the text of a field of a type can show a constant.
fn is_showable(kind: &JType, constant: &Constant) -> bool
    ensures showable { IsTrue result ↔ IsShowable (view_type kind.now) constant.now }
{
    match constant {
        Constant::Int(number) => is_in_range(kind, *number),
        Constant::Long(_) => matches!(kind, JType::Long),
        Constant::Text(_) => is_string(kind),
        Constant::Float(_) => false,
        Constant::Double(_) => false,
    }
}

/// Whether a field is static with a constant, and isn't final or its text can't show the constant.
pub fn has_wrong_constant(field: &Field) -> bool
    ensures wrong { IsTrue result ↔ HasWrongConstant (view_field field.now) }
{
    match &field.constant {
        Some(constant) => {
            field.flags & STATIC != 0
                && (field.flags & FINAL == 0 || !is_showable(&field.descriptor, constant))
        }
        None => false,
    }
}
