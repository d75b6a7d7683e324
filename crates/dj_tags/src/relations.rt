//! The two relations between references: the machine's and Java's (JVMS 4.10.1.2; JLS 4.10).

ghost use Rattle.std.specs.Prelude.{◌≡◌, ◌↔◌, ◌⊎◌, ◌<◌, ℕ, List, Some, IsTrue, IfSome, IsSomeAnd, length, slice_get};
ghost use Rattle.dj_names.specs.Types.{Class, view_type};
ghost use Rattle.dj_names.specs.Headers.{names, HasSuperclass, IsInterface, IsSubclass};
ghost use Rattle.dj_tags.specs.Laxly.{IsUnknown, HasUnknownAbove, IsJavaAssignable};

use crate::goes::Goes;
use dj_headers::{Headers, is_above_arrays, is_reference, is_subtype};
use dj_names::{ClassName, JType, same_type};

/// ACC_INTERFACE.
const INTERFACE: u16 = 0x0200;

/// What the machine asks of references: it takes a class that it doesn't know for any other.
pub struct Laxly<'a> {
    pub headers: &'a Headers,
}

/// What Java asks of them.
pub struct Strictly<'a> {
    pub headers: &'a Headers,
}

/// Whether no header tells of the class.
pub fn is_unknown(headers: &Headers, class: &ClassName) -> bool
    ensures unknown { IsTrue result ↔ IsUnknown headers.now class.now }
{
    headers.place(class).is_none()
}

/// The superclass that a class has by its header.
pub fn superclass_of<'a>(headers: &'a Headers, class: &ClassName) -> Option<&'a ClassName>
    ensures named { IfSome result (λ upper. HasSuperclass headers.now class.now upper.now) }
    ensures one { (other : List ℕ) → HasSuperclass headers.now class.now other → IsSomeAnd result (λ upper. other ≡ upper.now) }
{
    let at = headers.place(class)?;
    headers.as_slice()[at].superclass.as_ref()
}

/// Whether the class or a superclass of it is unknown.
fn has_unknown_above(headers: &Headers, class: &ClassName) -> bool
    ensures unknown { IsTrue result ↔ HasUnknownAbove headers.now class.now }
{
    let mut upper = class;
    for _ in headers.as_slice() {
        match superclass_of(headers, upper) {
            Some(next) => upper = next,
            None => return is_unknown(headers, upper),
        }
    }
    is_unknown(headers, upper)
}

/// Whether the header at the place of a class is an interface's.
fn is_interface_at(headers: &Headers, at: usize) -> bool
    requires within { at < length headers.now }
    ensures interface { (class : List ℕ) → slice_get (names headers.now) at ≡ Some class → IsTrue result ↔ IsInterface headers.now class }
{
    headers.as_slice()[at].flags & INTERFACE != 0
}

/// Whether a class is below another, or what is above it isn't known whole.
fn is_below_or_unknown(headers: &Headers, from: &ClassName, to: &ClassName) -> bool
    ensures goes { IsTrue result ↔ (IsSubclass headers.now from.now to.now ⊎ HasUnknownAbove headers.now from.now) }
{
    headers.is_subclass(from, to) || has_unknown_above(headers, from)
}

/// Whether the machine takes a reference of one class for one of the other.
fn class_goes(headers: &Headers, from: &ClassName, to: &ClassName) -> bool
    ensures goes { IsTrue result ↔ IsJavaAssignable headers.now (Class from.now) (Class to.now) }
{
    if from == to {
        return true;
    }
    match headers.place(to) {
        Some(at) => {
            if is_interface_at(headers, at) {
                return true;
            }
            is_below_or_unknown(headers, from, to)
        }
        None => true,
    }
}

/// Whether the machine takes a reference of one type for one of the other.
fn java_assignable(headers: &Headers, from: &JType, to: &JType) -> bool
    ensures goes { IsTrue result ↔ IsJavaAssignable headers.now (view_type from.now) (view_type to.now) }
{
    match from {
        JType::Class(from) => match to {
            JType::Class(to) => class_goes(headers, from, to),
            _ => false,
        },
        JType::Array(from) => match to {
            JType::Class(to) => is_above_arrays(to),
            JType::Array(to) => {
                if is_reference(from.get()) {
                    java_assignable(headers, from.get(), to.get())
                } else {
                    same_type(from.get(), to.get())
                }
            }
            _ => false,
        },
        _ => false,
    }
}

impl<'a> Goes for Laxly<'a> {
    ghost relation = { λ laxly. IsJavaAssignable laxly.headers.now };

    ghost known = { λ laxly. laxly.headers.now };

    fn goes(&self, from: &JType, to: &JType) -> bool {
        java_assignable(self.headers, from, to)
    }

    fn headers(&self) -> &Headers {
        self.headers
    }
}

impl<'a> Goes for Strictly<'a> {
    ghost use Rattle.dj_names.specs.Assignable.{IsSubtype};

    ghost relation = { λ strictly. IsSubtype strictly.headers.now };

    ghost known = { λ strictly. strictly.headers.now };

    fn goes(&self, from: &JType, to: &JType) -> bool {
        is_subtype(self.headers, from, to)
    }

    fn headers(&self) -> &Headers {
        self.headers
    }
}
