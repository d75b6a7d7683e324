//! Which methods of a class a search sees.

ghost use Rattle.std.specs.Prelude.{◌≡◌, ◌↔◌, IsTrue};
ghost use Rattle.dj_names.specs.Types.{view_descriptor};
ghost use Rattle.dj_kinds.specs.Own.{IsHiddenBelow, IsHiddenInObject, is_false_constructor, IsSeen};

use crate::types::has_result;
use dj_headers::Headers;
use dj_names::{ClassName, MethodHead, is_constructor};

/// Whether a method has the name of a constructor, and a result, which no constructor has.
fn is_false_constructor(method: &MethodHead) -> bool
    ensures false_constructor { result ≡ is_false_constructor method.now.name (view_descriptor method.now.descriptor) }
{
    is_constructor(&method.name) && has_result(&method.descriptor)
}

/// The class where a search starts, and one whose methods it looks at.
#[derive(Clone, Copy)]
pub struct View<'a> {
    pub headers: &'a Headers,
    pub start: &'a ClassName,
    pub class: &'a ClassName,
}

impl View<'_> {
    /// Whether a method stands in an interface and isn't seen from below it.
    fn hides_below(self, method: &MethodHead) -> bool
        ensures hidden { IsTrue result ↔ IsHiddenBelow self.entry.headers.now self.entry.start.now self.entry.class.now method.now }
    {
        self.start != self.class
            && self.headers.is_interface(self.class)
            && (method.flags & 0x0008 != 0 || method.flags & 0x0002 != 0)
    }

    /// Whether a method stands in a class and isn't seen from an interface.
    fn hides_in_object(self, method: &MethodHead) -> bool
        ensures hidden { IsTrue result ↔ IsHiddenInObject self.entry.headers.now self.entry.start.now self.entry.class.now method.now }
    {
        self.headers.is_interface(self.start)
            && !self.headers.is_interface(self.class)
            && (method.flags & 0x0001 == 0 || method.flags & 0x0008 != 0)
    }

    /// Whether the search sees a method of the class.
    pub fn sees(self, method: &MethodHead) -> bool
        ensures seen { IsTrue result ↔ IsSeen self.entry.headers.now self.entry.start.now self.entry.class.now method.now }
    {
        !self.hides_below(method) && !self.hides_in_object(method) && !is_false_constructor(method)
    }
}
