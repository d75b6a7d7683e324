//! The helper of a class, by which bodies throw again what they caught.

ghost use Rattle.std.specs.Prelude.{◌≡◌, ℕ, ◌<◌, ◌^◌, length, map, IfOk};
ghost use Rattle.dj_syntax.specs.Trees as trees;
ghost use Rattle.dj_class.specs.Views.{view_class};
ghost use Rattle.dj_world.specs.Worlds.{WorldOf};
ghost use Rattle.dj_signatures.specs.Signatures.{method_names};
ghost use Rattle.dj_causes.specs.Tables.{AreCauses};
ghost use Rattle.dj_class_text.specs.Helpers.{methods_have_rethrow, helper_name, IsFreeNumber, IsHelper};

use crate::rethrows::methods_have_rethrow;
use dj_causes::Causes;
use dj_class::ClassFile;
use dj_names::Units;
use dj_syntax::MethodText;
use std::alloc::{AllocError, Global};

/// The helper's name with a number.
fn helper_name(alloc: Global, number: usize) -> Result<Units, AllocError>
    ensures name { IfOk result (λ name. name ≡ helper_name number) }
{
    let text = format!(in alloc; "rethrow${number}")?;
    let mut units = Vec::new(alloc);
    for byte in text.as_bytes() {
        units.push(u16::from(*byte))?;
    }
    Units::from_vec(units)
}

/// The name of the helper, with the least number that no method of the class takes.
fn free_name(alloc: Global, class: &ClassFile, causes: &Causes) -> Result<Units, AllocError>
    requires few { length class.now.methods < 2 ^ 32 }
    ensures free { IfOk result (λ name. (world : WorldOf) → AreCauses world (view_class class.now) causes.now
        → (number : ℕ) × IsFreeNumber (method_names (view_class class.now).methods) number × (name ≡ helper_name number)) }
{
    for number in 0..class.methods.len() {
        let name = helper_name(alloc, number)?;
        if !causes.has_method(&name) {
            return Ok(name);
        }
    }
    let last = helper_name(alloc, class.methods.len())?;
    Ok(last)
}

/// The name of the helper, where one of the texts has a rethrow.
pub fn helper_of(
    alloc: Global,
    class: &ClassFile,
    causes: &Causes,
    texts: &[MethodText],
) -> Result<Option<Units>, AllocError>
    requires few { length class.now.methods < 2 ^ 32 }
    ensures helper { IfOk result (λ helper. (world : WorldOf) → AreCauses world (view_class class.now) causes.now
        → IsHelper (method_names (view_class class.now).methods) (methods_have_rethrow (map trees.view_method texts.now)) helper) }
{
    if methods_have_rethrow(texts) {
        let name = free_name(alloc, class, causes)?;
        Ok(Some(name))
    } else {
        Ok(None)
    }
}
