//! The causes of a method with code, in order.

ghost use Rattle.std.specs.Prelude.{◌≡◌, ◌<◌, ℕ, Option, Some, None, length, slice_get, IfOk, MatchOption};
ghost use Rattle.dj_instructions.specs.Instructions.{IsRising, view_instructions};
ghost use Rattle.dj_class.specs.Described.{ClassOf};
ghost use Rattle.dj_class.specs.Views.{view_class, view_method};
ghost use Rattle.dj_code.specs.MethodCode.{view_code, view_typed};
ghost use Rattle.dj_world.specs.Worlds.{WorldOf};
ghost use Rattle.dj_tags.specs.Laxly.{Strictly};
ghost use Rattle.dj_verify.specs.Tabled.{HasTable};
ghost use Rattle.dj_verify.specs.Verified.{IsTyped};
ghost use Rattle.dj_method_causes.specs.MethodCauses.{BreaksStrictly, IsCodeAt, IsMethodCause};
ghost use Rattle.dj_method_causes.specs.Telling.{HoldsGiven, IsFirstAmong, HasNoneInInstructions, HasNoneInNames, HasNoneInMembers, HasNoneInBirths, HasNoneEarly, IsToldCause, AreMethodCauses};

use dj_birth_causes::{first_before_super, first_unborn, too_much};
use dj_causes::Cause;
use dj_class::{ClassFile, Method};
use dj_code::Typed;
use dj_code_causes::{
    first_dynamic, first_float, first_monitor, least_missing, least_unsaid_in, names_above,
};
use dj_member_cause::first_lacking;
use dj_names::{ClassName, Items};
use dj_sayable::Scope;
use dj_signatures::{breaks_signature, rivals_of};
use dj_verify::{VerifyFault, strict};
use dj_world::World;
use std::alloc::{AllocError, Global};

/// What is made once of a class to tell the causes of its methods with code.
#[derive(Drop)]
pub struct MethodCauses {
    /// Which names its text can say.
    scope: Scope,
    /// Whether each method has a rival among the others.
    rivals: Items<bool>,
}

/// The method at a place.
fn method_at(class: &ClassFile, at: usize) -> &Method
    requires within { at < length class.now.methods }
    ensures there { slice_get (view_class class.now).methods at ≡ Some (view_method result.now) }
{
    let methods = class.methods.as_slice();
    &methods[at]
}

/// The first of the causes Float and Dynamic.
fn cause_in_instructions(typed: &Typed) -> Option<Cause>
    requires rising { IsRising (view_instructions typed.now.code.instructions) }
    ensures first { (unpaired : Option ℕ) (world : WorldOf) (class : ClassOf) (at : ℕ) → IsFirstAmong (HoldsGiven unpaired world class at (view_typed typed.now)) 1 3 result }
    ensures none { result ≡ None → HasNoneInInstructions (view_code typed.now.code) }
{
    if let Some(pc) = first_float(&typed.code) {
        return Some(Cause::Float(pc));
    }
    match first_dynamic(&typed.code) {
        Some(pc) => Some(Cause::Dynamic(pc)),
        None => None,
    }
}

/// The offset at which the frames of typed code first break a rule, by what Java asks of references.
fn first_broken(alloc: Global, world: &World, typed: &Typed) -> Result<Option<u32>, AllocError>
    requires rising { IsRising (view_instructions typed.now.code.instructions) }
    requires typed { HasTable (view_typed typed.now) }
    ensures first { IfOk result (λ found. MatchOption found ((pc : ℕ) → ¬ BreaksStrictly world.now (view_typed typed.now) pc) (BreaksStrictly world.now (view_typed typed.now))) }
    ensures strict { IfOk result (λ found. found ≡ None → IsTyped (Strictly world.now.headers) world.now.headers (view_typed typed.now)) }
{
    match strict(alloc, world.headers(), typed) {
        Ok(()) => Ok(None),
        Err(VerifyFault::Unverified { pc, .. }) => Ok(Some(pc)),
        Err(VerifyFault::Memory(error)) => Err(error),
    }
}

/// The first of the causes BeforeSuper, Unborn and Large.
fn cause_in_births(alloc: Global, world: &World, typed: &Typed) -> Result<Option<Cause>, AllocError>
    requires rising { IsRising (view_instructions typed.now.code.instructions) }
    ensures first { (unpaired : Option ℕ) (class : ClassOf) (at : ℕ) → IfOk result (IsFirstAmong (HoldsGiven unpaired world.now class at (view_typed typed.now)) 9 12) }
    ensures none { IfOk result (λ found. found ≡ None → HasNoneInBirths world.now (view_typed typed.now)) }
{
    let before = first_before_super(alloc, world, typed)?;
    if let Some(pc) = before {
        return Ok(Some(Cause::BeforeSuper(pc)));
    }
    let unborn = first_unborn(alloc, typed)?;
    if let Some(pc) = unborn {
        return Ok(Some(Cause::Unborn(pc)));
    }
    let much = too_much(alloc, typed)?;
    match much {
        Some(count) => Ok(Some(Cause::Large(count))),
        None => Ok(None),
    }
}

impl MethodCauses {
    /// What tells the causes of the methods of a class that have code.
    pub fn new(alloc: Global, world: &World, class: &ClassFile) -> Result<MethodCauses, AllocError>
        ensures made { IfOk result (AreMethodCauses world.now (view_class class.now)) }
    {
        let scope = Scope::new(alloc, world.headers(), world.members(), &class.this_class)?;
        let rivals = rivals_of(alloc, class.methods.as_slice())?;
        Ok(MethodCauses { scope, rivals })
    }

    /// The first of the causes Missing and Name.
    fn cause_in_names(
        &self,
        alloc: Global,
        world: &World,
        class: &ClassFile,
        typed: &Typed,
    ) -> Result<Option<Cause>, AllocError>
        requires made { AreMethodCauses world.now (view_class class.now) self.now }
        requires own { typed.now.code.class ≡ class.now.this_class }
        ensures first { (unpaired : Option ℕ) (at : ℕ) → IfOk result (IsFirstAmong (HoldsGiven unpaired world.now (view_class class.now) at (view_typed typed.now)) 3 5) }
        ensures none { IfOk result (λ found. found ≡ None → HasNoneInNames world.now (view_code typed.now.code)) }
    {
        let names = names_above(alloc, world, &typed.code)?;
        let missing = least_missing(alloc, world, names.as_slice())?;
        if let Some(name) = missing {
            return Ok(Some(Cause::Missing(ClassName::new(name))));
        }
        let unsaid = least_unsaid_in(alloc, world, &self.scope, &typed.code, names.as_slice())?;
        match unsaid {
            Some(name) => Ok(Some(Cause::Name(name))),
            None => Ok(None),
        }
    }

    /// The first of the causes Signature, Member and Interface.
    fn cause_in_members(
        &self,
        alloc: Global,
        world: &World,
        class: &ClassFile,
        at: usize,
        typed: &Typed,
    ) -> Result<Option<Cause>, AllocError>
        requires made { AreMethodCauses world.now (view_class class.now) self.now }
        requires within { at < length class.now.methods }
        requires rising { IsRising (view_instructions typed.now.code.instructions) }
        requires typed { HasTable (view_typed typed.now) }
        ensures first { (unpaired : Option ℕ) → IfOk result (IsFirstAmong (HoldsGiven unpaired world.now (view_class class.now) at (view_typed typed.now)) 5 8) }
        ensures none { IfOk result (λ found. found ≡ None → HasNoneInMembers world.now (view_class class.now) at (view_typed typed.now)) }
    {
        let method = method_at(class, at);
        if breaks_signature(class, self.rivals.as_slice(), at, method) {
            return Ok(Some(Cause::Signature));
        }
        let lacking = first_lacking(alloc, world, typed)?;
        if let Some(pc) = lacking {
            return Ok(Some(Cause::Member(pc)));
        }
        let broken = first_broken(alloc, world, typed)?;
        match broken {
            Some(pc) => Ok(Some(Cause::Interface(pc))),
            None => Ok(None),
        }
    }

    /// The first of the causes before Monitor.
    fn early_cause(
        &self,
        alloc: Global,
        world: &World,
        class: &ClassFile,
        at: usize,
        typed: &Typed,
    ) -> Result<Option<Cause>, AllocError>
        requires made { AreMethodCauses world.now (view_class class.now) self.now }
        requires place { IsCodeAt (view_class class.now) at (view_code typed.now.code) }
        requires within { at < length class.now.methods }
        requires rising { IsRising (view_instructions typed.now.code.instructions) }
        requires typed { HasTable (view_typed typed.now) }
        ensures first { (unpaired : Option ℕ) → IfOk result (IsFirstAmong (HoldsGiven unpaired world.now (view_class class.now) at (view_typed typed.now)) 1 8) }
        ensures none { IfOk result (λ found. found ≡ None → HasNoneEarly world.now (view_class class.now) at (view_typed typed.now)) }
    {
        if let Some(cause) = cause_in_instructions(typed) {
            return Ok(Some(cause));
        }
        let in_names = self.cause_in_names(alloc, world, class, typed)?;
        if let Some(cause) = in_names {
            return Ok(Some(cause));
        }
        let in_members = self.cause_in_members(alloc, world, class, at, typed)?;
        match in_members {
            Some(cause) => Ok(Some(cause)),
            None => Ok(None),
        }
    }

    /// The first cause for which the method at a place isn't printed, given its typed code, and the offset
    /// at which its monitors are unpaired, if they are.
    pub fn first_cause(
        &self,
        alloc: Global,
        world: &World,
        class: &ClassFile,
        at: usize,
        typed: &Typed,
        unpaired: Option<u32>,
    ) -> Result<Option<Cause>, AllocError>
        requires made { AreMethodCauses world.now (view_class class.now) self.now }
        requires place { IsCodeAt (view_class class.now) at (view_code typed.now.code) }
        requires within { at < length class.now.methods }
        requires rising { IsRising (view_instructions typed.now.code.instructions) }
        requires typed { HasTable (view_typed typed.now) }
        ensures first { IfOk result (IsMethodCause (λ typed pc. unpaired ≡ Some pc) world.now (view_class class.now) at (view_typed typed.now)) }
    {
        let early = self.early_cause(alloc, world, class, at, typed)?;
        if let Some(cause) = early {
            return Ok(Some(cause));
        }
        if let Some(pc) = unpaired {
            return Ok(Some(Cause::Monitor(pc)));
        }
        let in_births = cause_in_births(alloc, world, typed)?;
        match in_births {
            Some(cause) => Ok(Some(cause)),
            None => Ok(None),
        }
    }

    /// The cause that is told of the method at a place, given its typed code: the first one, or none where
    /// that is its monitors, which aren't paired yet.
    pub fn told_cause(
        &self,
        alloc: Global,
        world: &World,
        class: &ClassFile,
        at: usize,
        typed: &Typed,
    ) -> Result<Option<Cause>, AllocError>
        requires made { AreMethodCauses world.now (view_class class.now) self.now }
        requires place { IsCodeAt (view_class class.now) at (view_code typed.now.code) }
        requires within { at < length class.now.methods }
        requires rising { IsRising (view_instructions typed.now.code.instructions) }
        requires typed { HasTable (view_typed typed.now) }
        ensures told { IfOk result (IsToldCause world.now (view_class class.now) at (view_typed typed.now)) }
    {
        let unpaired = first_monitor(&typed.code);
        let early = self.early_cause(alloc, world, class, at, typed)?;
        if let Some(cause) = early {
            return Ok(Some(cause));
        }
        if let Some(_) = unpaired {
            return Ok(None);
        }
        let in_births = cause_in_births(alloc, world, typed)?;
        match in_births {
            Some(cause) => Ok(Some(cause)),
            None => Ok(None),
        }
    }
}
