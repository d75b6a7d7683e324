//! Which members a class has itself.

ghost use Rattle.std.specs.Prelude.{◌≡◌};
ghost use Rattle.dj_names.specs.Types.{view_type};
ghost use Rattle.dj_kinds.specs.Own.{HasOwnField, HasOwnMethod};

use crate::pickers::{MethodPicker, first_field};
use crate::search::{Declares, Listing, place_of};
use crate::seen::View;
use dj_headers::Headers;
use dj_members::MemberTable;
use dj_names::{ClassName, JType, Member, Units};

/// A field's name and type.
#[derive(Clone, Copy)]
pub struct OwnField<'a> {
    pub headers: &'a Headers,
    pub members: &'a MemberTable,
    pub name: &'a Units,
    pub kind: &'a JType,
}

impl Declares for OwnField<'_> {
    ghost own = { λ o. HasOwnField o.headers.now o.members.now o.name.now (view_type o.kind.now) };

    fn own(&self, class: &ClassName) -> Option<Member> {
        let Some(place) = place_of(self.headers, class) else {
            return None;
        };
        let Some(own) = self.members.at(place) else {
            return None;
        };
        let names = &self.members.names_at(place).fields;
        match first_field(own.fields.as_slice(), names, self.name, self.kind) {
            Some(number) => Some(Member {
                class: place as u32,
                method: false,
                number: number as u32,
            }),
            None => None,
        }
    }

    fn listing(&self) -> Listing<'_> {
        Listing {
            headers: self.headers,
            members: self.members,
            name: self.name,
        }
    }
}

/// What picks one of the methods of a class, as it is seen from where a search starts.
#[derive(Drop)]
pub struct OwnMethod<'a, P> {
    pub headers: &'a Headers,
    pub members: &'a MemberTable,
    pub start: &'a ClassName,
    pub picker: &'a P,
}

impl<P: MethodPicker> Declares for OwnMethod<'_, P> {
    ghost own = { λ o. HasOwnMethod o.headers.now o.members.now (P.picks o.picker.now) o.start.now };

    fn own(&self, class: &ClassName) -> Option<Member> {
        let Some(place) = place_of(self.headers, class) else {
            return None;
        };
        let Some(own) = self.members.at(place) else {
            return None;
        };
        let view = View {
            headers: self.headers,
            start: self.start,
            class,
        };
        let names = &self.members.names_at(place).methods;
        match self.picker.pick(view, own.methods.as_slice(), names) {
            Some(number) => Some(Member {
                class: place as u32,
                method: true,
                number: number as u32,
            }),
            None => None,
        }
    }

    fn listing(&self) -> Listing<'_> {
        Listing {
            headers: self.headers,
            members: self.members,
            name: self.picker.name(),
        }
    }
}
