//! The flags of classes, fields and methods that their text shows, and those that it gives back (JVMS 4.1, 4.5, 4.6).

ghost use Rattle.std.specs.Prelude.{◌≡◌, if◌then◌else◌};
ghost use Rattle.dj_syntax.specs.Trees.{view_field, view_method};
ghost use Rattle.dj_syntax.specs.UnitText.{class_bits, field_bits, is_interface, method_bits};
ghost use Rattle.dj_syntax.specs.WellFormed.{held_class, held_field, held_method};

use crate::method_names::is_initialiser;
use crate::unit::{FieldText, MethodText};

const STATIC: u16 = 0x0008;

/// Whether class flags are those of an interface.
pub fn is_interface(flags: u16) -> bool
    ensures interface { result ≡ is_interface flags }
{
    flags & 0x0200 != 0
}

/// The bits that a class shows: public, abstract and final; an interface shows public.
pub fn class_bits(interface: bool) -> u16
    ensures bits { result ≡ class_bits interface }
{
    if interface { 0x0001 } else { 0x0411 }
}

/// The bits that a field shows: all but synthetic and enum, final only beside a value; in an interface static.
pub fn field_bits(interface: bool, valued: bool) -> u16
    ensures bits { result ≡ field_bits interface valued }
{
    match (interface, valued) {
        (true, _) => STATIC,
        (false, true) => 0x00df,
        (false, false) => 0x00cf,
    }
}

/// The bits that a method shows: all but bridge, varargs, strict and synthetic; in an interface static.
pub fn method_bits(interface: bool) -> u16
    ensures bits { result ≡ method_bits interface }
{
    if interface { STATIC } else { 0x053f }
}

/// The flags that the text of a class or interface gives back.
pub fn held_class(flags: u16) -> u16
    ensures held { result ≡ held_class flags }
{
    let interface = is_interface(flags);
    flags & class_bits(interface) | if interface { 0x0600 } else { 0 }
}

/// The flags that the text of a field gives back.
pub fn held_field(interface: bool, field: &FieldText) -> u16
    ensures held { result ≡ held_field interface (view_field field.now) }
{
    let valued = field.value.is_some();
    field.flags & field_bits(interface, valued) | implied_of_field(interface, valued)
}

/// The flags that an interface implies for its field: public, and final beside a value.
fn implied_of_field(interface: bool, valued: bool) -> u16
    ensures implied { result ≡ (if interface then (if valued then 0x0011 else 0x0001) else 0) }
{
    match (interface, valued) {
        (true, true) => 0x0011,
        (true, false) => 0x0001,
        (false, _) => 0,
    }
}

/// The flags that the text of a method gives back.
pub fn held_method(interface: bool, method: &MethodText) -> u16
    ensures held { result ≡ held_method interface (view_method method.now) }
{
    if is_initialiser(&method.name) {
        return STATIC;
    }
    let abstracted = method.body.is_none() && method.flags & STATIC == 0;
    method.flags & method_bits(interface) | implied_of_method(interface, abstracted)
}

/// The flags that an interface implies for its method: public, and abstract where there is neither a body nor `static`.
fn implied_of_method(interface: bool, abstracted: bool) -> u16
    ensures implied { result ≡ (if interface then (if abstracted then 0x0401 else 0x0001) else 0) }
{
    match (interface, abstracted) {
        (true, true) => 0x0401,
        (true, false) => 0x0001,
        (false, _) => 0,
    }
}
