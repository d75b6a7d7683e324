//! Whether another method of a name can be found through a class (JLS 15.12.2).

ghost use Rattle.std.specs.Prelude.{◌≡◌, ◌↔◌, ℕ, List, IsTrue, false, IfSome, Some, slice_get, map, flat_map};
ghost use Rattle.std.specs.List.{list_any};
ghost use Rattle.std.specs.Option.{option_copied};
ghost use Rattle.dj_names.specs.Types.{view_type, view_types, view_descriptor, parameters_of};
ghost use Rattle.dj_names.specs.Headers.{names, HasDistinctNames, Implements};
ghost use Rattle.dj_kinds.specs.Search.{header_of, interfaces_of, upward, depth_first, beside, method_order, FindsOne};
ghost use Rattle.dj_kinds.specs.Choice.{searched_class};
ghost use Rattle.dj_meaning.specs.Members.{view_method, view_members};
ghost use Rattle.dj_meaning.specs.Calls as calls;
ghost use Rattle.dj_members_shown.specs.Alone as spec;
ghost use Rattle.dj_alone.specs.Rivals as rivals;

use dj_headers::Headers;
use dj_kinds::MemberTable;
use dj_members::{Picker, all_named};
use dj_names::{
    ClassName, Descriptor, Header, JType, Member, MethodHead, Units, is_constructor, same_type,
};
use dj_static::{Classes, is_interface, superclass_of};

/// The parameters of a descriptor.
pub fn parameters_of(descriptor: &Descriptor) -> &[JType]
    ensures parameters { view_types result.now ≡ parameters_of (view_descriptor descriptor.now) }
{
    match descriptor {
        Descriptor::Method { parameters, .. } => parameters.as_slice(),
        Descriptor::Field(_) => &[],
    }
}

/// Methods of a name, looked for through a class, beside one of these parameters.
#[derive(Clone, Copy)]
pub struct Rivals<'a> {
    pub headers: &'a Headers,
    pub members: &'a MemberTable,
    pub class: &'a ClassName,
    pub name: &'a Units,
    pub parameters: &'a [JType],
}

/// Whether types are the same, one by one, as a relation.
fn are_equal(first: &[JType], second: &[JType]) -> bool
    ensures same { IsTrue result ↔ (view_types first.now ≡ view_types second.now) }
{
    match first {
        [] => second.is_empty(),
        [one, first @ ..] => match second {
            [] => false,
            [other, second @ ..] => same_type(one, other) && are_equal(first, second),
        },
    }
}

/// Whether types are the same, one by one.
fn are_same(first: &[JType], second: &[JType]) -> bool
    ensures same { result ≡ rivals.are_same (view_types first.now) (view_types second.now) }
{
    are_equal(first, second)
}

/// Whether a method has as many parameters as these, and others.
fn differs(parameters: &[JType], method: &MethodHead) -> bool
    ensures differs { result ≡ rivals.differs (view_types parameters.now) (view_method method.now) }
{
    let own = parameters_of(&method.descriptor);
    own.len() == parameters.len() && !are_same(own, parameters)
}

/// Whether a method has the name of a constructor, and a result, which no constructor has.
fn is_false_constructor(method: &MethodHead) -> bool
    ensures constructs { result ≡ rivals.is_no_constructor (view_method method.now) }
{
    is_constructor(&method.name)
        && match &method.descriptor {
            Descriptor::Field(_) => true,
            Descriptor::Method { result, .. } => result.is_some(),
        }
}

impl Rivals<'_> {
    /// Whether a method of a class is seen from below it.
    fn sees_below(self, class: &ClassName, method: &MethodHead) -> bool
        ensures seen { result ≡ rivals.sees_below self.entry.headers.now self.entry.class.now class.now (view_method method.now) }
    {
        self.class == class
            || !is_interface(self.headers, class)
            || method.flags & 0x0008 == 0 && method.flags & 0x0002 == 0
    }

    /// Whether a method of a class is seen from where the search starts, where that is an interface.
    fn sees_above(self, class: &ClassName, method: &MethodHead) -> bool
        ensures seen { result ≡ rivals.sees_above self.entry.headers.now self.entry.class.now class.now (view_method method.now) }
    {
        !is_interface(self.headers, self.class)
            || is_interface(self.headers, class)
            || method.flags & 0x0001 != 0 && method.flags & 0x0008 == 0
    }

    /// Whether the search sees a method of a class.
    fn sees(self, class: &ClassName, method: &MethodHead) -> bool
        ensures seen { result ≡ calls.is_seen self.entry.headers.now self.entry.class.now class.now (view_method method.now) }
    {
        self.sees_below(class, method)
            && self.sees_above(class, method)
            && !is_false_constructor(method)
    }

    /// Whether a class has another such method.
    fn has(self, class: &ClassName) -> bool
        ensures has { result ≡ rivals.has self.entry.headers.now (map view_members self.entry.members.now) self.entry.class.now self.entry.name.now (view_types self.entry.parameters.now) class.now }
    {
        match place_of(self.headers, class) {
            None => false,
            Some(place) => match self.members.at(place) {
                None => false,
                Some(own) => {
                    let others = Others {
                        rivals: self,
                        class,
                        methods: own.methods.as_slice(),
                    };
                    !all_named(&self.members.names_at(place).methods, self.name, &others)
                }
            },
        }
    }

    /// Whether a class at or above this one has one. It looks only at the members of the name, so that a
    /// name that no member has costs nothing.
    fn has_above(self, class: &ClassName) -> bool
        ensures nowhere { result ≡ false → (upper : List ℕ) → Implements self.entry.headers.now class.now upper
            → rivals.has self.entry.headers.now (map view_members self.entry.members.now) self.entry.class.now self.entry.name.now (view_types self.entry.parameters.now) upper ≡ false }
    {
        let sites = self.members.sites();
        let away = Away {
            rivals: self,
            class,
            members: sites.members.as_slice(),
        };
        !all_named(&sites.names, self.name, &away)
    }

    /// Whether an interface has one, or what it extends, in at most so many steps. It goes only where it
    /// finds one, so that many ways to one interface cost nothing.
    fn is_at_or_above(self, interface: &ClassName, most: usize) -> bool
        ensures above { result ≡ list_any (rivals.has self.entry.headers.now (map view_members self.entry.members.now) self.entry.class.now self.entry.name.now (view_types self.entry.parameters.now)) (depth_first most self.entry.headers.now interface.now) }
    {
        if most == 0 {
            return false;
        }
        if !self.has_above(interface) {
            return false;
        }
        if self.has(interface) {
            return true;
        }
        for parent in interfaces_of(self.headers, interface) {
            if self.is_at_or_above(parent, most - 1) {
                return true;
            }
        }
        false
    }

    /// Whether an interface of a class has one, or what these extend.
    fn is_beside(self, class: &ClassName, most: usize) -> bool
        ensures beside { result ≡ list_any (rivals.has self.entry.headers.now (map view_members self.entry.members.now) self.entry.class.now self.entry.name.now (view_types self.entry.parameters.now)) (beside most self.entry.headers.now class.now) }
    {
        for interface in interfaces_of(self.headers, class) {
            if self.is_at_or_above(interface, most) {
                return true;
            }
        }
        false
    }

    /// Whether a class has one, or a superclass of it.
    fn is_upward(self, most: usize) -> bool
        ensures upward { result ≡ list_any (rivals.has self.entry.headers.now (map view_members self.entry.members.now) self.entry.class.now self.entry.name.now (view_types self.entry.parameters.now)) (upward most self.entry.headers.now (Some self.entry.class.now)) }
    {
        let mut at = self.class;
        for _ in 0..most {
            if self.has(at) {
                return true;
            }
            match superclass_of(self.headers, at) {
                Some(superclass) => at = superclass,
                None => return false,
            }
        }
        false
    }

    /// Whether an interface of a class or of its superclasses has one, or what these extend.
    fn is_in_interfaces(self, most: usize) -> bool
        ensures beside { result ≡ list_any (rivals.has self.entry.headers.now (map view_members self.entry.members.now) self.entry.class.now self.entry.name.now (view_types self.entry.parameters.now)) (flat_map (beside most self.entry.headers.now) (upward most self.entry.headers.now (Some self.entry.class.now))) }
    {
        let mut at = self.class;
        for _ in 0..most {
            if self.is_beside(at, most) {
                return true;
            }
            match superclass_of(self.headers, at) {
                Some(superclass) => at = superclass,
                None => return false,
            }
        }
        false
    }

    /// Whether one can be found through the class.
    fn is_anywhere(self) -> bool
        ensures anywhere { result ≡ list_any (rivals.has self.entry.headers.now (map view_members self.entry.members.now) self.entry.class.now self.entry.name.now (view_types self.entry.parameters.now)) (method_order self.entry.headers.now self.entry.name.now self.entry.class.now) }
    {
        if is_constructor(self.name) {
            return self.has(self.class);
        }
        let most = self.headers.as_slice().len() + 1;
        self.is_upward(most) || self.is_in_interfaces(most)
    }
}

/// The place of a class's header, if it has one.
fn place_of(headers: &Headers, class: &ClassName) -> Option<usize>
    ensures place { FindsOne (λ at. slice_get (names headers.now) at ≡ Some class.now) result }
    ensures distinct { HasDistinctNames headers.now }
{
    if headers.as_slice().is_empty() {
        return None;
    }
    headers.place(class)
}

/// The header at a place.
fn header_at(headers: &Headers, at: usize) -> Option<&Header>
    ensures header { option_copied result ≡ slice_get headers.now at }
    ensures distinct { HasDistinctNames headers.now }
{
    headers.as_slice().get(at)
}

/// The header of a class, if there is one.
fn header_of<'a>(headers: &'a Headers, class: &ClassName) -> Option<&'a Header>
    ensures header { option_copied result ≡ header_of headers.now class.now }
{
    match headers.place(class) {
        None => None,
        Some(at) => header_at(headers, at),
    }
}

/// The interfaces that the header of a class names.
fn interfaces_of<'a>(headers: &'a Headers, class: &ClassName) -> &'a [ClassName]
    ensures interfaces { result.now ≡ interfaces_of headers.now class.now }
{
    match header_of(headers, class) {
        None => &[],
        Some(header) => header.interfaces.as_slice(),
    }
}

/// Whether no other method of a name and of as many parameters can be found through a class.
pub fn is_alone(
    classes: &Classes<'_>,
    class: &ClassName,
    name: &Units,
    parameters: &[JType],
) -> bool
    ensures alone { result ≡ spec.is_alone classes.now.headers.now (map view_members classes.now.members.now) name.now class.now (view_types parameters.now) }
{
    let rivals = Rivals {
        headers: classes.headers,
        members: classes.members,
        class,
        name,
        parameters,
    };
    !rivals.is_anywhere()
}

/// The same through the class in which the methods of a type are searched for.
pub fn is_alone_in(classes: &Classes<'_>, owner: &JType, name: &Units, parameters: &[JType]) -> bool
    ensures alone { result ≡ spec.is_alone_in classes.now.headers.now (map view_members classes.now.members.now) name.now (searched_class (view_type owner.now)) (view_types parameters.now) }
{
    match owner {
        JType::Class(class) => is_alone(classes, class, name, parameters),
        JType::Array(_) => match classes.headers.object() {
            Some(class) => is_alone(classes, class, name, parameters),
            None => true,
        },
        JType::Boolean
        | JType::Byte
        | JType::Char
        | JType::Short
        | JType::Int
        | JType::Long
        | JType::Float
        | JType::Double => false,
    }
}

/// The methods of a class that aren't other ones that are seen.
#[derive(Clone, Copy)]
struct Others<'a> {
    rivals: Rivals<'a>,
    class: &'a ClassName,
    methods: &'a [MethodHead],
}

impl Picker for Others<'_> {
    ghost picks = { λ p at. IfSome (slice_get p.methods.now at) (λ method. rivals.is_rival p.rivals.headers.now p.rivals.class.now (view_types p.rivals.parameters.now) p.class.now (view_method method) ≡ false) };

    fn picks(&self, at: usize) -> bool {
        match self.methods.get(at) {
            None => true,
            Some(method) => {
                !(differs(self.rivals.parameters, method) && self.rivals.sees(self.class, method))
            }
        }
    }
}

/// Members, and those whose class isn't above a class or has no other such method.
#[derive(Clone, Copy)]
struct Away<'a> {
    rivals: Rivals<'a>,
    class: &'a ClassName,
    members: &'a [Member],
}

impl Picker for Away<'_> {
    ghost picks = { λ p at. IfSome (slice_get p.members.now at) (λ member. IfSome (slice_get p.rivals.headers.now member.class)
        (λ header. Implements p.rivals.headers.now p.class.now header.name
        → rivals.has p.rivals.headers.now (map view_members p.rivals.members.now) p.rivals.class.now p.rivals.name.now (view_types p.rivals.parameters.now) header.name ≡ false)) };

    fn picks(&self, at: usize) -> bool {
        match self.members.get(at) {
            None => true,
            Some(member) => match header_at(self.rivals.headers, member.class as usize) {
                None => true,
                Some(header) => {
                    !self.rivals.headers.implements(self.class, &header.name)
                        || !self.rivals.has(&header.name)
                }
            },
        }
    }
}
