//! Which classes there are, and which are final.

ghost use Rattle.std.specs.Prelude.{◌↔◌, IsTrue, Contains, IsBitSet};
ghost use Rattle.dj_names.specs.Headers.{names, HasDistinctNames};
ghost use Rattle.dj_world.specs.Clashes.{IsFinal, IsClass};

use dj_headers::Headers;
use dj_names::{ClassName, Header};

/// ACC_FINAL.
const FINAL: u16 = 0x0010;

/// Whether the class has a header.
pub fn is_there(headers: &Headers, class: &ClassName) -> bool
    ensures exact { IsTrue result ↔ Contains (names headers.now) class.now }
{
    headers.place(class).is_some()
}

/// Whether a header is that of a final class.
pub fn is_final_header(header: &Header) -> bool
    ensures exact { IsTrue result ↔ IsBitSet header.now.flags 4 }
{
    header.flags & FINAL != 0
}

/// Whether the class has a header, and is final by it.
pub fn is_final(headers: &Headers, class: &ClassName) -> bool
    requires distinct { HasDistinctNames headers.now }
    ensures exact { IsTrue result ↔ IsFinal headers.now class.now }
{
    match headers.place(class) {
        Some(at) => is_final_header(&headers.as_slice()[at]),
        None => false,
    }
}

/// Whether the class has a header, and is no interface by it.
pub fn is_class(headers: &Headers, class: &ClassName) -> bool
    ensures exact { IsTrue result ↔ IsClass headers.now class.now }
{
    is_there(headers, class) && !headers.is_interface(class)
}
