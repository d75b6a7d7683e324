//! The variables that hold `this` and the parameters as a method begins.

ghost use Rattle.std.specs.Prelude.{◌≡◌, ◌+◌, IfOk, length, map};
ghost use Rattle.dj_frames.specs.Frames.{slots_of, tag_of};
ghost use Rattle.dj_names.specs.Types as types;
ghost use Rattle.dj_names.specs.Types.{view_descriptor, view_type};
ghost use Rattle.dj_values.specs.Fits as fits;
ghost use Rattle.dj_code.specs.MethodCode.{view_typed};
ghost use Rattle.dj_vars.specs.Parameters.{slots_from};
ghost use Rattle.dj_code_variables.specs.Views.{IsReady, view_vars};
ghost use Rattle.dj_method.specs.Parts as parts;
ghost use Rattle.dj_decompiled.specs.Decompiled.{lone_parts};

use dj_code::Typed;
use dj_code_variables::Vars;
use dj_declaring::Entry;
use dj_names::{Descriptor, Items, JType};
use std::alloc::{AllocError, Global};

const STATIC: u16 = 0x0008;

/// Whether flags are those of a static method.
fn is_static(flags: u16) -> bool
    ensures exact { result ≡ fits.is_static flags }
{
    flags & STATIC != 0
}

/// The types of a method's parameters.
pub fn parameters_of(descriptor: &Descriptor) -> &[JType]
    ensures parameters { map view_type result.now ≡ types.parameters_of (view_descriptor descriptor.now) }
{
    match descriptor {
        Descriptor::Field(_) => &[],
        Descriptor::Method { parameters, .. } => parameters.as_slice(),
    }
}

/// The slot behind a value of a type; an error says that there is none.
fn behind(slot: u32, kind: &JType) -> Result<u32, AllocError>
    ensures behind { IfOk result (λ next. next ≡ slot + length (slots_of (tag_of (view_type kind.now)))) }
{
    match slot.checked_add(u32::from(kind.words())) {
        Some(next) => Ok(next),
        None => Err(AllocError),
    }
}

/// The variables that hold values of these types, the first in this slot.
fn holders(
    alloc: Global,
    vars: &Vars,
    first: u32,
    parameters: &[JType],
) -> Result<Items<Option<u32>>, AllocError>
    requires ready { IsReady vars.now }
    ensures holders { IfOk result (λ found. found ≡ map ((view_vars vars.now).of 0) (slots_from first (map view_type parameters.now))) }
{
    let mut slot = first;
    let mut found = Items::new(alloc);
    let mut left = parameters;
    while let [kind, rest @ ..] = left {
        found.push(vars.of(0, slot))?;
        slot = behind(slot, kind)?;
        left = rest;
    }
    Ok(found)
}

/// The variables that hold `this` and the parameters as a method begins.
pub fn entry_of(alloc: Global, vars: &Vars, typed: &Typed) -> Result<Entry, AllocError>
    requires ready { IsReady vars.now }
    ensures entry { IfOk result (λ entry. entry ≡ parts.entry_of (lone_parts (view_typed typed.now) (view_vars vars.now))) }
{
    let code = &typed.code;
    let parameters = parameters_of(&code.descriptor);
    if is_static(code.flags) {
        let parameters = holders(alloc, vars, 0, parameters)?;
        Ok(Entry {
            itself: None,
            parameters,
        })
    } else {
        let parameters = holders(alloc, vars, 1, parameters)?;
        Ok(Entry {
            itself: vars.of(0, 0),
            parameters,
        })
    }
}
