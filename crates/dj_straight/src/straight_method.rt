//! Whether a method is straight, and the body of one that is.

ghost use Rattle.std.specs.Prelude.{◌≡◌, ◌<◌, ◌^◌, List, ◌∷◌, [], ◌++◌, replicate, Some, IfOk, OnOk, IsTrue, IsBitSet, ◌↔◌, length};
ghost use Rattle.dj_names.specs.Types as types;
ghost use Rattle.dj_names.specs.Types.{parameters_of, view_descriptor};
ghost use Rattle.dj_syntax.specs.Trees as trees;
ghost use Rattle.dj_syntax.specs.Trees.{view_body, view_exp};
ghost use Rattle.dj_syntax.specs.UnitText.{is_interface};
ghost use Rattle.dj_syntax.specs.WellFormed.{IsWellFormedExp, held_method};
ghost use Rattle.dj_values.specs.Fits.{is_static};
ghost use Rattle.dj_class.specs.Described.{MethodOf};
ghost use Rattle.dj_class.specs.Views.{view_class, view_method};
ghost use Rattle.dj_code.specs.MethodCode.{view_code};
ghost use Rattle.dj_code.specs.ReadCode.{SpellsCode};
ghost use Rattle.dj_straight.specs.DeclaredMethods.{Holds};
ghost use Rattle.dj_straight.specs.StraightMethod.{IsBodyOf, IsDeclared, IsPlainCode, is_public, with_body};
ghost use Rattle.dj_straight.specs.Judged.{HasPlainHead, IsJudged, IsJudgedCode, IsSpelledBy, IfStraight};

use crate::declared::Declared;
use crate::ints::answers_int;
use crate::straight::{Rebuilt, straight_body};
use dj_class::{ClassFile, Method};
use dj_code::{Code, read_content};
use dj_names::{Items, copy_names, is_identifier};
use dj_syntax::{Body, Exp, Stm, is_initialiser, is_interface, method_bits};
use std::alloc::{AllocError, Global};

const PUBLIC: u16 = 0x0001;

const STATIC: u16 = 0x0008;

const BRIDGE: u16 = 0x0040;

/// What is found of a method.
#[derive(Drop)]
pub enum Judged {
    /// It returns this expression.
    Straight(Exp),
    /// It isn't straight at this offset of its code.
    NotYet(u32),
}

/// Whether method flags have ACC_STATIC.
fn is_static(flags: u16) -> bool
    ensures static_flag { result ≡ is_static flags }
{
    flags & STATIC != 0
}

/// Whether method flags have ACC_PUBLIC.
fn is_public(flags: u16) -> bool
    ensures public_flag { result ≡ is_public flags }
{
    flags & PUBLIC != 0
}

/// Whether method flags have ACC_BRIDGE.
fn is_bridge(flags: u16) -> bool
    ensures bridge_flag { IsTrue result ↔ IsBitSet flags 6 }
{
    flags & BRIDGE != 0
}

/// Whether the head of a method of a class is that of a straight one, its parameters aside.
fn has_plain_head(class: &ClassFile, method: &Method) -> bool
    ensures plain { IsTrue result ↔ HasPlainHead (view_class class.now) (view_method method.now) }
{
    is_identifier(&method.name)
        && is_static(method.flags)
        && (!is_interface(class.flags) || is_public(method.flags))
        && !is_bridge(method.flags)
        && method.thrown.is_empty()
        && answers_int(&method.descriptor)
}

/// Whether code has no frames.
fn has_no_frames(code: &Code) -> bool
    ensures none { IsTrue result ↔ ((view_code code.now).frames ≡ []) }
{
    code.frames.is_empty()
}

/// Whether code has neither handlers nor frames, and a local for each parameter.
fn is_plain(code: &Code, parameters: usize) -> bool
    ensures plain { IsTrue result ↔ IsPlainCode parameters (view_code code.now) }
{
    code.handlers.is_empty() && has_no_frames(code) && parameters <= usize::from(code.max_locals)
}

/// What is found of code, spelled by these bytes.
fn judge_code(
    alloc: Global,
    code: &Code,
    bytes: &[u8],
    parameters: usize,
) -> Result<Judged, AllocError>
    requires short { length bytes.now < 2 ^ 32 }
    ensures judged { IfOk result (IsJudgedCode parameters bytes.now (view_code code.now)) }
    ensures fits { IfOk result (λ judged. IfStraight judged IsWellFormedExp) }
{
    if !is_plain(code, parameters) {
        return Ok(Judged::NotYet(0));
    }
    let instructions = code.instructions.as_slice();
    match straight_body(alloc, instructions, bytes, code.max_stack, parameters)? {
        Rebuilt::Tree(exp) => Ok(Judged::Straight(exp)),
        Rebuilt::Breaks(pc) => Ok(Judged::NotYet(pc)),
    }
}

/// The bytes of the instructions of a method that has code.
fn bytes_of(alloc: Global, method: &Method) -> Result<Option<Items<u8>>, AllocError>
    ensures bytes { IfOk result (IsSpelledBy (view_method method.now)) }
{
    let Some(content) = &method.code else {
        return Ok(None);
    };
    match read_content(alloc, content.as_slice())? {
        Some(content) => Ok(Some(content.code)),
        None => Ok(None),
    }
}

/// What is found of a method of so many ints, the first with its name that takes as many.
fn judge_first(
    alloc: Global,
    class: &ClassFile,
    method: &Method,
    code: &Code,
    parameters: usize,
) -> Result<Judged, AllocError>
    requires ints { parameters_of (view_descriptor method.now.descriptor) ≡ replicate parameters types.Int }
    requires spelled { SpellsCode (view_class class.now) (view_method method.now) (view_code code.now) }
    ensures judged { IfOk result (λ judged. (before : List MethodOf) → (¬ IsDeclared before method.now.name (replicate parameters types.Int)) → IsJudged (view_class class.now) before (view_method method.now) judged) }
    ensures fits { IfOk result (λ judged. IfStraight judged IsWellFormedExp) }
{
    if !has_plain_head(class, method) {
        return Ok(Judged::NotYet(0));
    }
    match bytes_of(alloc, method)? {
        Some(bytes) => judge_code(alloc, code, bytes.as_slice(), parameters),
        None => unreachable!(),
    }
}

/// What is found of a method of a class that has this code, where the table holds the methods before
/// it; it is put into the table.
pub fn judge<'a>(
    alloc: Global,
    class: &ClassFile,
    declared: &mut Declared<'a>,
    method: &'a Method,
    code: &Code,
) -> Result<Judged, AllocError>
    requires spelled { SpellsCode (view_class class.now) (view_method method.now) (view_code code.now) }
    ensures judged { IfOk result (λ judged. (before : List MethodOf) → Holds declared.old before → IsJudged (view_class class.now) before (view_method method.now) judged) }
    ensures fits { IfOk result (λ judged. IfStraight judged IsWellFormedExp) }
    ensures declared { OnOk result ((before : List MethodOf) → Holds declared.old before → Holds declared.new (before ++ view_method method.now ∷ [])) }
{
    match declared.admit(method)? {
        Some(parameters) => judge_first(alloc, class, method, code, parameters),
        None => Ok(Judged::NotYet(0)),
    }
}

/// The flags that the text of a method with a body gives back.
fn held_flags(class: &ClassFile, method: &Method) -> u16
    ensures held { (body : trees.Body) → result ≡ held_method (is_interface class.now.flags) (with_body (view_method method.now) body) }
{
    if is_initialiser(&method.name) {
        return STATIC;
    }
    let interface = is_interface(class.flags);
    method.flags & method_bits(interface) | if interface { PUBLIC } else { 0 }
}

/// The body that returns an expression, with the head of its method.
pub fn returning_body(
    alloc: Global,
    class: &ClassFile,
    method: &Method,
    exp: Exp,
) -> Result<Body, AllocError>
    ensures body { IfOk result (λ body. IsBodyOf (view_class class.now) (view_method method.now) (view_exp exp) (view_body body)) }
{
    let mut statements = Items::new(alloc);
    statements.push(Stm::Return(Some(exp)))?;
    Ok(Body {
        class: class.this_class.copy(alloc)?,
        flags: held_flags(class, method),
        name: method.name.copy(alloc)?,
        descriptor: method.descriptor.copy(alloc)?,
        thrown: copy_names(alloc, method.thrown.as_slice())?,
        statements,
    })
}
