//! Which fields and methods a class has itself, looked up by their names.

ghost use Rattle.std.specs.Prelude.{◌≡◌, ◌↔◌, ℕ, IsTrue, Some, IsSomeAnd, slice_get};
ghost use Rattle.dj_names.specs.declared.members.MethodHead.{MethodHead};
ghost use Rattle.dj_names.specs.Types.{view_type, view_types, view_descriptor, parameters_of};
ghost use Rattle.dj_kinds.specs.Own.{IsFirst, IsFieldOf, IsMethodOf, IsOverload, IsBridge, IsSeen, IsFirstOf, Counts};
ghost use Rattle.dj_members.specs.Tables.{field_names, method_names};
ghost use Rattle.dj_kinds.specs.Search.{FindsOne};
ghost use Rattle.dj_kinds.specs.Single.{first_one, counts_one};

use crate::seen::View;
use crate::types::{are_same_types, is_same_descriptor, parameters_of};
use dj_members::{NameTable, Picker, first_named};
use dj_names::{Descriptor, Field, JType, MethodHead, Units, same_type};

/// A type, looked for among fields.
#[derive(Clone, Copy)]
struct ByType<'a> {
    fields: &'a [Field],
    kind: &'a JType,
}

impl Picker for ByType<'_> {
    ghost picks = { λ p at. IsSomeAnd (slice_get p.fields.now at) (λ field. view_type field.descriptor ≡ view_type p.kind.now) };

    fn picks(&self, at: usize) -> bool {
        match self.fields.get(at) {
            None => false,
            Some(field) => same_type(&field.descriptor, self.kind),
        }
    }
}

/// A descriptor, looked for among methods that are seen.
#[derive(Clone, Copy)]
struct ByDescriptor<'a> {
    methods: &'a [MethodHead],
    descriptor: &'a Descriptor,
    view: View<'a>,
}

impl Picker for ByDescriptor<'_> {
    ghost picks = { λ p at. IsSomeAnd (slice_get p.methods.now at) (λ method. (view_descriptor method.descriptor ≡ view_descriptor p.descriptor.now)
        × IsSeen p.view.headers.now p.view.start.now p.view.class.now method) };

    fn picks(&self, at: usize) -> bool {
        match self.methods.get(at) {
            None => false,
            Some(method) => {
                is_same_descriptor(&method.descriptor, self.descriptor) && self.view.sees(method)
            }
        }
    }
}

/// Parameters, looked for among methods that are seen.
#[derive(Clone, Copy)]
struct ByParameters<'a> {
    methods: &'a [MethodHead],
    parameters: &'a [JType],
    view: View<'a>,
}

impl Picker for ByParameters<'_> {
    ghost picks = { λ p at. IsSomeAnd (slice_get p.methods.now at) (λ method. (parameters_of (view_descriptor method.descriptor) ≡ view_types p.parameters.now)
        × IsSeen p.view.headers.now p.view.start.now p.view.class.now method) };

    fn picks(&self, at: usize) -> bool {
        match self.methods.get(at) {
            None => false,
            Some(method) => {
                are_same_types(parameters_of(&method.descriptor), self.parameters)
                    && self.view.sees(method)
            }
        }
    }
}

/// Parameters, looked for among methods that are seen and are no bridges.
#[derive(Clone, Copy)]
struct ByParametersPlain<'a> {
    methods: &'a [MethodHead],
    parameters: &'a [JType],
    view: View<'a>,
}

impl Picker for ByParametersPlain<'_> {
    ghost picks = { λ p at. IsSomeAnd (slice_get p.methods.now at) (λ method. (parameters_of (view_descriptor method.descriptor) ≡ view_types p.parameters.now)
        × IsSeen p.view.headers.now p.view.start.now p.view.class.now method × ¬ IsBridge method) };

    fn picks(&self, at: usize) -> bool {
        match self.methods.get(at) {
            None => false,
            Some(method) => {
                method.flags & 0x0040 == 0
                    && are_same_types(parameters_of(&method.descriptor), self.parameters)
                    && self.view.sees(method)
            }
        }
    }
}

/// The first of these fields of a name and a type.
pub fn first_field(fields: &[Field], names: &NameTable, name: &Units, kind: &JType) -> Option<usize>
    requires named { names.now ≡ field_names fields.now }
    ensures first { FindsOne (IsFirst (IsFieldOf name.now (view_type kind.now)) fields.now) result }
{
    let picker = ByType { fields, kind };
    first_named(names, name, &picker)
}

/// The first of these methods of a name and parameters that is seen and is no bridge.
fn first_plain(
    methods: &[MethodHead],
    names: &NameTable,
    name: &Units,
    parameters: &[JType],
    view: View<'_>,
) -> Option<usize>
    requires named { names.now ≡ method_names methods.now }
    ensures first { FindsOne (IsFirst (λ method. IsOverload name.now (view_types parameters.now) method
        × IsSeen view.entry.headers.now view.entry.start.now view.entry.class.now method × ¬ IsBridge method) methods.now) result }
{
    let picker = ByParametersPlain {
        methods,
        parameters,
        view,
    };
    first_named(names, name, &picker)
}

/// The first of these methods of a name and parameters that is seen.
fn first_overload(
    methods: &[MethodHead],
    names: &NameTable,
    name: &Units,
    parameters: &[JType],
    view: View<'_>,
) -> Option<usize>
    requires named { names.now ≡ method_names methods.now }
    ensures first { FindsOne (IsFirst (λ method. IsOverload name.now (view_types parameters.now) method
        × IsSeen view.entry.headers.now view.entry.start.now view.entry.class.now method) methods.now) result }
{
    let picker = ByParameters {
        methods,
        parameters,
        view,
    };
    first_named(names, name, &picker)
}

/// Tells which of the methods of a class is meant, all of one name, among those that are seen.
pub trait MethodPicker {
    ghost use Rattle.std.specs.Prelude.{◌≡◌, ◌<◌, ℕ, List, Some, IfSome, length, slice_get};
    ghost use Rattle.dj_names.specs.declared.header.Header.{Header};
    ghost use Rattle.dj_names.specs.declared.members.MethodHead.{MethodHead};
    ghost use Rattle.dj_members.specs.Tables.{method_names};
    ghost use Rattle.dj_kinds.specs.Search.{FindsOne};
    ghost use Rattle.dj_kinds.specs.Own.{IsSeen};

    ghost picks: { Self → (MethodHead → Type 0) → List MethodHead → ℕ → Type 0 };

    fn pick(&self, view: View<'_>, methods: &[MethodHead], names: &NameTable) -> Option<usize>
        requires named { names.now ≡ method_names methods.now }
        ensures picks { FindsOne (picks self.now (IsSeen view.entry.headers.now view.entry.start.now view.entry.class.now) methods.now) result }
        ensures within { IfSome result (λ at. at < length methods.now) };

    fn name(&self) -> &Units
        ensures named { (headers : List Header) (start class : List ℕ) (methods : List MethodHead) (at : ℕ) → picks self.now (IsSeen headers start class) methods at
            → slice_get (method_names methods) at ≡ Some result.now };

    ghost one: { (picker : Self) (headers : List Header) (start class : List ℕ) (methods : List MethodHead) (first second : ℕ) → picks picker (IsSeen headers start class) methods first
        → picks picker (IsSeen headers start class) methods second → first ≡ second };
}

/// The first method of a name and a descriptor.
#[derive(Clone, Copy)]
pub struct Signature<'a> {
    pub name: &'a Units,
    pub descriptor: &'a Descriptor,
}

impl MethodPicker for Signature<'_> {
    ghost picks = { λ s. IsFirstOf s.name.now (view_descriptor s.descriptor.now) };

    fn pick(&self, view: View<'_>, methods: &[MethodHead], names: &NameTable) -> Option<usize> {
        let picker = ByDescriptor {
            methods,
            descriptor: self.descriptor,
            view,
        };
        first_named(names, self.name, &picker)
    }

    fn name(&self) -> &Units {
        self.name
    }

    ghost one = { λ s headers start class methods. first_one (λ (method : MethodHead). IsMethodOf s.name.now (view_descriptor s.descriptor.now) method × IsSeen headers start class method) methods };
}

/// The method of a name and parameters that counts.
#[derive(Clone, Copy)]
pub struct Overload<'a> {
    pub name: &'a Units,
    pub parameters: &'a [JType],
}

impl MethodPicker for Overload<'_> {
    ghost picks = { λ o. Counts o.name.now (view_types o.parameters.now) };

    fn pick(&self, view: View<'_>, methods: &[MethodHead], names: &NameTable) -> Option<usize> {
        match first_plain(methods, names, self.name, self.parameters, view) {
            Some(at) => Some(at),
            None => first_overload(methods, names, self.name, self.parameters, view),
        }
    }

    fn name(&self) -> &Units {
        self.name
    }

    ghost one = { λ o headers start class. counts_one o.name.now (view_types o.parameters.now) (IsSeen headers start class) };
}
