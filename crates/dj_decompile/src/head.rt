//! The head of a body.

ghost use Rattle.std.specs.Prelude.{◌≡◌, IfOk};
ghost use Rattle.dj_syntax.specs.Trees.{view_body};
ghost use Rattle.dj_code.specs.MethodCode.{view_code};
ghost use Rattle.dj_one_block.specs.OneBlock as block;
ghost use Rattle.dj_decompiled.specs.Decompiled as spec;

use dj_code::Code;
use dj_names::{Items, copy_names};
use dj_syntax::{Body, is_initialiser, method_bits};
use std::alloc::{AllocError, Global};

const PUBLIC: u16 = 0x0001;

const STATIC: u16 = 0x0008;

/// The head of the method that code is of, without statements.
pub fn head_of(alloc: Global, code: &Code) -> Result<Body, AllocError>
    ensures head { IfOk result (λ head. view_body head ≡ block.head_of (view_code code.now)) }
{
    let class = code.class.copy(alloc)?;
    let name = code.name.copy(alloc)?;
    let descriptor = code.descriptor.copy(alloc)?;
    let thrown = copy_names(alloc, code.thrown.as_slice())?;
    Ok(Body {
        class,
        flags: code.flags,
        name,
        descriptor,
        thrown,
        statements: Items::new(alloc),
    })
}

/// The flags that the text of the method gives back.
fn held_flags(code: &Code) -> u16
    ensures held { result ≡ spec.held_flags (view_code code.now) }
{
    if is_initialiser(&code.name) {
        return STATIC;
    }
    code.flags & method_bits(code.interface) | if code.interface { PUBLIC } else { 0 }
}

/// A body with the flags that its text gives back.
pub fn with_held_flags(code: &Code, body: Body) -> Body
    ensures held { view_body result ≡ spec.with_held_flags (view_code code.now) (view_body body) }
{
    let Body {
        class,
        name,
        descriptor,
        thrown,
        statements,
        ..
    } = body;
    Body {
        class,
        flags: held_flags(code),
        name,
        descriptor,
        thrown,
        statements,
    }
}
