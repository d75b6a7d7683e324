//! The member that is found for a name and a descriptor (JVMS 5.4.3.2 to 5.4.3.4).

ghost use Rattle.std.specs.Prelude.{◌≡◌};
ghost use Rattle.dj_names.specs.declared.members.Member.{Member};
ghost use Rattle.dj_names.specs.Types.{view_type, view_types, view_descriptor};
ghost use Rattle.dj_kinds.specs.Own.{Counts};
ghost use Rattle.dj_kinds.specs.Found.{IsFoundBy, IsFoundMethod, IsFoundField};
ghost use Rattle.dj_kinds.specs.Search.{FindsOne};

use crate::own::{OwnField, OwnMethod};
use crate::pickers::{MethodPicker, Overload, Signature};
use crate::search::{find, find_by_class, find_upward};
use dj_headers::Headers;
use dj_members::MemberTable;
use dj_names::{ClassName, Descriptor, JType, Member, Units, is_constructor};

/// The first method in the order of search, by what picks one among the methods of a class.
pub fn find_picked<P: MethodPicker>(
    headers: &Headers,
    members: &MemberTable,
    class: &ClassName,
    name: &Units,
    picker: &P,
) -> Option<Member>
    ensures found { FindsOne (IsFoundBy (P.picks picker.now) headers.now members.now class.now name.now) result }
    ensures one { (first second : Member) → IsFoundBy (P.picks picker.now) headers.now members.now class.now name.now first
        → IsFoundBy (P.picks picker.now) headers.now members.now class.now name.now second → first ≡ second }
{
    if headers.as_slice().is_empty() {
        return None;
    }
    let methods = OwnMethod {
        headers,
        members,
        start: class,
        picker,
    };
    if is_constructor(name) {
        find_upward(headers, &methods, class, 1)
    } else {
        find(headers, &methods, class)
    }
}

/// The first method of this name and these parameters in the order of search, by which one counts in a class.
pub fn find_overload(
    headers: &Headers,
    members: &MemberTable,
    class: &ClassName,
    name: &Units,
    parameters: &[JType],
) -> Option<Member>
    ensures found { FindsOne (IsFoundBy (Counts name.now (view_types parameters.now)) headers.now members.now class.now name.now) result }
{
    let picker = Overload { name, parameters };
    find_picked(headers, members, class, name, &picker)
}

/// The method that is found from a class, if any is.
pub fn find_method(
    headers: &Headers,
    members: &MemberTable,
    class: &ClassName,
    name: &Units,
    descriptor: &Descriptor,
) -> Option<Member>
    ensures found { FindsOne (IsFoundMethod headers.now members.now class.now name.now (view_descriptor descriptor.now)) result }
{
    let picker = Signature { name, descriptor };
    find_picked(headers, members, class, name, &picker)
}

/// The field that is found from a class, if any is.
pub fn find_field(
    headers: &Headers,
    members: &MemberTable,
    class: &ClassName,
    name: &Units,
    kind: &JType,
) -> Option<Member>
    ensures found { FindsOne (IsFoundField headers.now members.now class.now name.now (view_type kind.now)) result }
{
    let fields = OwnField {
        headers,
        members,
        name,
        kind,
    };
    find_by_class(headers, &fields, class)
}
