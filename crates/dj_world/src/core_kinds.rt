//! What a header may say of the core classes, whatever else there is (JVMS 4.1, 5.3.5).

ghost use Rattle.std.specs.Prelude.{◌≡◌, ◌≢◌, ◌↔◌, ◌⊎◌, [], Some, None, IsTrue, IsSomeAnd, Any, Contains, IsBitSet};
ghost use Rattle.dj_names.specs.Assignable.{object_name, above_arrays};
ghost use Rattle.dj_world.specs.CoreKinds.{core_interfaces, core_plain, IsOtherKind, NamesOtherKind, StandsLow, ExtendsOther, BreaksCore};

use dj_headers::is_above_arrays;
use dj_names::{ClassName, Header, is_among, is_word};

/// ACC_INTERFACE.
pub const INTERFACE: u16 = 0x0200;

/// The core classes that are interfaces.
const INTERFACES: [&str; 4] = [
    "java/lang/Cloneable",
    "java/io/Serializable",
    "java/lang/Comparable",
    "java/lang/CharSequence",
];

/// The core classes that are none.
const CLASSES: [&str; 20] = [
    "java/lang/Object",
    "java/lang/Class",
    "java/lang/String",
    "java/lang/StringBuilder",
    "java/lang/Throwable",
    "java/lang/Exception",
    "java/lang/RuntimeException",
    "java/lang/Error",
    "java/lang/ArithmeticException",
    "java/lang/IndexOutOfBoundsException",
    "java/lang/ArrayStoreException",
    "java/lang/ClassCastException",
    "java/lang/NegativeArraySizeException",
    "java/lang/NullPointerException",
    "java/lang/IllegalMonitorStateException",
    "java/lang/IllegalArgumentException",
    "java/lang/ArrayIndexOutOfBoundsException",
    "java/lang/CloneNotSupportedException",
    "java/lang/InterruptedException",
    "java/io/IOException",
];

/// Whether a core class of the name is an interface.
fn is_core_interface(class: &ClassName) -> bool
    ensures exact { IsTrue result ↔ Contains core_interfaces class.now }
{
    is_among(class.as_slice(), &INTERFACES)
}

/// Whether a core class of the name is no interface.
fn is_core_plain(class: &ClassName) -> bool
    ensures exact { IsTrue result ↔ Contains core_plain class.now }
{
    is_among(class.as_slice(), &CLASSES)
}

/// Whether a core class isn't of its kind.
fn is_other_kind(header: &Header) -> bool
    ensures exact { IsTrue result ↔ IsOtherKind header.now }
{
    if header.flags & INTERFACE != 0 {
        is_core_plain(&header.name)
    } else {
        is_core_interface(&header.name)
    }
}

/// Whether a superclass, if there is one, is a core interface.
fn is_below_core_interface(superclass: &Option<ClassName>) -> bool
    ensures exact { IsTrue result ↔ IsSomeAnd superclass.now (Contains core_interfaces) }
{
    match superclass {
        Some(superclass) => is_core_interface(superclass),
        None => false,
    }
}

/// Whether one of these is a core class that is no interface.
fn has_core_plain(interfaces: &[ClassName]) -> bool
    ensures exact { IsTrue result ↔ Any (Contains core_plain) interfaces.now }
{
    interfaces.iter().any(|interface| is_core_plain(interface))
}

/// Whether a superclass or a listed interface is a core class of the other kind.
fn names_other_kind(header: &Header) -> bool
    ensures exact { IsTrue result ↔ NamesOtherKind header.now }
{
    is_below_core_interface(&header.superclass) || has_core_plain(header.interfaces.as_slice())
}

/// Whether this is Object.
fn is_object(class: &ClassName) -> bool
    ensures exact { IsTrue result ↔ (class.now ≡ object_name) }
{
    is_word(class.as_slice(), "java/lang/Object")
}

/// Whether Object, Cloneable or Serializable lists an interface.
fn lists_above_arrays(header: &Header) -> bool
    ensures exact { IsTrue result ↔ (Contains above_arrays header.now.name × header.now.interfaces ≢ []) }
{
    is_above_arrays(&header.name) && !header.interfaces.is_empty()
}

/// Whether Object has a superclass.
fn extends_as_object(header: &Header) -> bool
    ensures exact { IsTrue result ↔ ((header.now.name ≡ object_name) × header.now.superclass ≢ None) }
{
    is_object(&header.name) && header.superclass.is_some()
}

/// Whether a class that arrays go to stands below more than it may.
fn stands_low(header: &Header) -> bool
    ensures exact { IsTrue result ↔ StandsLow header.now }
{
    lists_above_arrays(header) || extends_as_object(header)
}

/// Whether the superclass is Object.
fn is_below_object(superclass: &Option<ClassName>) -> bool
    ensures exact { IsTrue result ↔ (superclass.now ≡ Some object_name) }
{
    match superclass {
        Some(superclass) => is_object(superclass),
        None => false,
    }
}

/// Whether an interface has another superclass than Object, or none.
fn extends_other(header: &Header) -> bool
    ensures exact { IsTrue result ↔ ExtendsOther header.now }
{
    header.flags & INTERFACE != 0 && !is_below_object(&header.superclass)
}

/// Whether a header is, or names, a core class of the other kind.
fn has_other_kind(header: &Header) -> bool
    ensures exact { IsTrue result ↔ (IsOtherKind header.now ⊎ NamesOtherKind header.now) }
{
    is_other_kind(header) || names_other_kind(header)
}

/// Whether a header says of a core class what isn't so.
pub fn breaks_core(header: &Header) -> bool
    ensures exact { IsTrue result ↔ BreaksCore header.now }
{
    has_other_kind(header) || stands_low(header) || extends_other(header)
}
