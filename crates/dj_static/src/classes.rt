//! The classes that run, as a name in one of them sees them.

ghost use Rattle.std.specs.Prelude.{◌≡◌, slice_get};
ghost use Rattle.std.specs.Option.{option_copied};
ghost use Rattle.dj_names.specs.Headers.{HasDistinctNames};
ghost use Rattle.dj_kinds.specs.Search.{header_of, superclass_in};
ghost use Rattle.dj_static.specs.Walks.{place_of};

use dj_headers::Headers;
use dj_members::MemberTable;
use dj_names::{ClassName, Header};

/// The headers of the classes, their members in the same order, and the class in which names are used.
#[derive(Clone, Copy)]
pub struct Classes<'a> {
    pub headers: &'a Headers,
    pub members: &'a MemberTable,
    pub from: &'a ClassName,
}

/// The header at a place.
pub fn header_at(headers: &Headers, at: usize) -> Option<&Header>
    ensures header { option_copied result ≡ slice_get headers.now at }
    ensures distinct { HasDistinctNames headers.now }
{
    headers.as_slice().get(at)
}

/// The place of a class's header, if it has one.
pub fn place_of(headers: &Headers, class: &ClassName) -> Option<usize>
    ensures place { result ≡ place_of headers.now class.now }
{
    if headers.as_slice().is_empty() {
        return None;
    }
    headers.place(class)
}

/// The header of a class, if there is one.
fn header_of<'a>(headers: &'a Headers, class: &ClassName) -> Option<&'a Header>
    ensures header { option_copied result ≡ header_of headers.now class.now }
{
    match headers.place(class) {
        None => None,
        Some(at) => header_at(headers, at),
    }
}

/// The superclass that the header of a class names.
pub fn superclass_of<'a>(headers: &'a Headers, class: &ClassName) -> Option<&'a ClassName>
    ensures superclass { option_copied result ≡ superclass_in (header_of headers.now class.now) }
{
    match header_of(headers, class) {
        None => None,
        Some(header) => match &header.superclass {
            None => None,
            Some(superclass) => Some(superclass),
        },
    }
}
