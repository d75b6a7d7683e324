//! What is made of a class that has a method without code to tell the causes of such methods, and these causes.

ghost use Rattle.std.specs.Prelude.{◌≡◌, ◌↔◌, ◌<◌, Some, None, Any, length, IsTrue, IsSomeAnd, IfOk, slice_get};
ghost use Rattle.dj_names.specs.Headers.{Name};
ghost use Rattle.dj_class.specs.Views.{view_class, view_method};
ghost use Rattle.dj_sayable.specs.Scopes.{IsScope};
ghost use Rattle.dj_causes.specs.BareCauses.{IsMethodName, IsUnsaid, IsBareCause};
ghost use Rattle.dj_causes.specs.Tables.{IsBareTable, IsLeastIfAny};

use crate::cause::Cause;
use crate::unsaid::{common_names, head_names, least_unsaid, lesser};
use dj_class::{ClassFile, Method};
use dj_names::{Items, Units, is_constructor, is_identifier, is_initialiser};
use dj_sayable::Scope;
use dj_signatures::{breaks_signature, rivals_of};
use dj_world::World;
use std::alloc::{AllocError, Global};

/// What the causes of all methods of a class without code rest on.
#[derive(Drop)]
pub struct BareTable {
    /// Whether each method has a rival among the others.
    rivals: Items<bool>,
    /// The least name that the class can't say among those that the texts of all its methods share.
    common: Option<Units>,
}

/// Whether one of these methods has no code.
pub fn has_bare(methods: &[Method]) -> bool
    ensures bare { IsTrue result ↔ Any (λ method. method.code ≡ None) methods.now }
{
    methods.iter().any(|method| method.code.is_none())
}

/// An equal name, if there is one.
fn copy_units(alloc: Global, name: &Option<Units>) -> Result<Option<Units>, AllocError>
    ensures equal { IfOk result (λ copy. copy ≡ name.now) }
{
    match name {
        Some(units) => Ok(Some(units.copy(alloc)?)),
        None => Ok(None),
    }
}

/// A method's name, where no text can say it.
pub fn unsaid_method_name(alloc: Global, name: &Units) -> Result<Option<Units>, AllocError>
    ensures unsaid { IfOk result (IsLeastIfAny (λ other. ¬ IsMethodName name.now × (other ≡ name.now))) }
{
    if is_method_name(name) {
        Ok(None)
    } else {
        Ok(Some(name.copy(alloc)?))
    }
}

/// Whether a name is an identifier, or that of a constructor or of a static initialiser.
pub fn is_method_name(name: &Units) -> bool
    ensures name { IsTrue result ↔ IsMethodName name.now }
{
    is_constructor(name) || is_initialiser(name) || is_identifier(name)
}

/// The method at a place.
fn method_at(class: &ClassFile, at: usize) -> &Method
    requires within { at < length class.now.methods }
    ensures there { slice_get (view_class class.now).methods at ≡ Some (view_method result.now) }
{
    let methods = class.methods.as_slice();
    &methods[at]
}

impl BareTable {
    /// What the causes of the methods of a class without code rest on.
    pub fn new(
        alloc: Global,
        world: &World,
        class: &ClassFile,
        scope: &Scope,
    ) -> Result<BareTable, AllocError>
        requires scope { IsScope world.now.headers world.now.members class.now.this_class scope.now }
        ensures made { IfOk result (IsBareTable world.now (view_class class.now)) }
    {
        let shared = common_names(alloc, &class.this_class)?;
        let common = least_unsaid(alloc, world, scope, shared.as_slice())?;
        let rivals = rivals_of(alloc, class.methods.as_slice())?;
        Ok(BareTable { rivals, common })
    }

    /// The least name that the text of a method can't say among its own and those of the classes that it may rest on.
    fn unsaid_in_method(
        &self,
        alloc: Global,
        world: &World,
        class: &ClassFile,
        scope: &Scope,
        method: &Method,
    ) -> Result<Option<Units>, AllocError>
        requires made { IsBareTable world.now (view_class class.now) self.now }
        requires scope { IsScope world.now.headers world.now.members class.now.this_class scope.now }
        ensures least { IfOk result (IsLeastIfAny (IsUnsaid world.now (view_class class.now) (view_method method.now))) }
    {
        let head = head_names(alloc, method)?;
        let own = least_unsaid(alloc, world, scope, head.as_slice())?;
        let common = copy_units(alloc, &self.common)?;
        let name = unsaid_method_name(alloc, &method.name)?;
        Ok(lesser(name, lesser(common, own)))
    }

    /// The first cause for which the method at a place, which has no code, isn't printed.
    pub fn cause(
        &self,
        alloc: Global,
        world: &World,
        class: &ClassFile,
        scope: &Scope,
        at: usize,
    ) -> Result<Option<Cause>, AllocError>
        requires made { IsBareTable world.now (view_class class.now) self.now }
        requires scope { IsScope world.now.headers world.now.members class.now.this_class scope.now }
        requires within { at < length class.now.methods }
        ensures first { IfOk result (IsBareCause world.now (view_class class.now) at) }
        // No name of such a method is unsaid, where it has no cause.
        ensures said { IfOk result (λ found. found ≡ None → (name : Name) → ¬ IsSomeAnd (slice_get (view_class class.now).methods at) (λ method. IsUnsaid world.now (view_class class.now) method name)) }
    {
        let method = method_at(class, at);
        if let Some(name) = self.unsaid_in_method(alloc, world, class, scope, method)? {
            return Ok(Some(Cause::Name(name)));
        }
        if breaks_signature(class, self.rivals.as_slice(), at, method) {
            return Ok(Some(Cause::Signature));
        }
        Ok(None)
    }
}
