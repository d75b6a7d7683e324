//! Members of a class or interface, read from words (JLS 8, 9).

ghost use Rattle.std.specs.Prelude.{◌≡◌, IfOk, OnOk, option_map};
ghost use Rattle.dj_names.specs.Types.{view_type};
ghost use Rattle.dj_syntax.specs.Trees.{view_field, view_method};
ghost use Rattle.dj_grammar.specs.Members.{ends_members, no_members, read_helper, read_member, read_members, read_modified, read_named, with_field, with_method};
ghost use Rattle.dj_parse.specs.Views.{view_members, view_place};

mod field;
mod method;
mod modifiers;

use crate::members::field::read_field;
use crate::members::method::{CONSTRUCTOR, read_initialiser, read_method};
use dj_names::{ClassName, Items, JType, Units};
use dj_syntax::{FieldText, MethodText};
use dj_tokens::{KnownNames, Reader, read_result, units_of};
pub use modifiers::read_modifiers;
use std::alloc::{AllocError, Global};

/// How many words of the helper stand before its name, behind its modifiers: `<T extends java.lang.Throwable>
/// java.lang.RuntimeException`.
const BEFORE_HELPER_NAME: usize = 14;

/// How many words of the helper there are from its name on: the name, `(java.lang.Throwable t) throws T { throw (T) t; }`.
const FROM_HELPER_NAME: usize = 19;

/// Where a member stands: whether its unit is an interface, and the name of its class.
#[derive(Drop)]
pub struct Place {
    pub interface: bool,
    pub class: ClassName,
}

/// The members that are read so far.
#[derive(Drop)]
pub struct Members {
    pub fields: Items<FieldText>,
    pub helper: Option<Units>,
    pub methods: Items<MethodText>,
}

impl Members {
    /// No members.
    fn new(alloc: Global) -> Members
        ensures none { view_members result ≡ no_members }
    {
        Members {
            fields: Items::new(alloc),
            helper: None,
            methods: Items::new(alloc),
        }
    }

    /// A field more.
    fn add_field(&mut self, field: FieldText) -> Result<(), AllocError>
        ensures added { OnOk result (view_members self.new ≡ with_field (view_members self.old) (view_field field)) }
    {
        self.fields.push(field)?;
        Ok(())
    }

    /// A method, a constructor or a static initialiser more.
    fn add_method(&mut self, method: MethodText) -> Result<(), AllocError>
        ensures added { OnOk result (view_members self.new ≡ with_method (view_members self.old) (view_method method)) }
    {
        self.methods.push(method)?;
        Ok(())
    }
}

/// The members up to the brace that ends a unit, so many at most.
pub fn read_members(
    alloc: Global,
    place: &Place,
    most: usize,
    reader: &mut Reader,
) -> Result<Members, AllocError>
    ensures read { IfOk result (λ members. view_members members ≡ read_members (view_place place.now) most no_members reader.old) }
{
    let mut members = Members::new(alloc);
    let mut names = KnownNames::new(alloc);
    for _ in 0..most {
        if ends_members(reader) {
            return Ok(members);
        }
        read_member(alloc, place, &mut names, &mut members, reader)?;
    }
    Ok(members)
}

/// Whether the members of a unit end here: at a brace, or where no word is left.
fn ends_members(reader: &Reader) -> bool
    ensures ends { result ≡ ends_members reader.now }
{
    reader.is_at_end() || reader.is_at(b"}")
}

/// A member more.
fn read_member(
    alloc: Global,
    place: &Place,
    names: &mut KnownNames,
    members: &mut Members,
    reader: &mut Reader,
) -> Result<(), AllocError>
    ensures read { OnOk result ((view_members members.new, reader.new) ≡ read_member (view_place place.now) (view_members members.old) reader.old) }
{
    let bits = read_modifiers(reader);
    read_modified(alloc, place, names, members, bits, reader)
}

/// A member behind its modifiers, whose bits are these.
fn read_modified(
    alloc: Global,
    place: &Place,
    names: &mut KnownNames,
    members: &mut Members,
    bits: u16,
    reader: &mut Reader,
) -> Result<(), AllocError>
    ensures read { OnOk result ((view_members members.new, reader.new) ≡ read_modified (view_place place.now) (view_members members.old) bits reader.old) }
{
    if reader.is_at(b"{") {
        members.add_method(read_initialiser(alloc, place, names, bits, reader)?)
    } else if reader.is_at(b"<") {
        members.helper = Some(read_helper(alloc, reader)?);
        Ok(())
    } else if reader.is_next(b"(") {
        reader.advance();
        let name = names.word(alloc, CONSTRUCTOR)?;
        members.add_method(read_method(alloc, place, names, bits, name, None, reader)?)
    } else {
        let kind = read_result(alloc, reader)?;
        read_named(alloc, place, names, members, bits, kind, reader)
    }
}

/// The name of the helper, from behind its modifiers on.
fn read_helper(alloc: Global, reader: &mut Reader) -> Result<Units, AllocError>
    ensures read { IfOk result (λ name. (name, reader.new) ≡ read_helper reader.old) }
{
    reader.skip(BEFORE_HELPER_NAME);
    let name = units_of(alloc, reader.first())?;
    reader.skip(FROM_HELPER_NAME);
    Ok(name)
}

/// A method or a field, with its result or type read.
fn read_named(
    alloc: Global,
    place: &Place,
    names: &mut KnownNames,
    members: &mut Members,
    bits: u16,
    kind: Option<JType>,
    reader: &mut Reader,
) -> Result<(), AllocError>
    ensures read { OnOk result ((view_members members.new, reader.new) ≡ read_named (view_place place.now) (view_members members.old) bits (option_map view_type kind) reader.old) }
{
    let name = names.word(alloc, reader.take())?;
    if reader.is_at(b"(") {
        members.add_method(read_method(alloc, place, names, bits, name, kind, reader)?)
    } else {
        let kind = kind.unwrap_or(JType::Int);
        members.add_field(read_field(alloc, place, names, bits, kind, name, reader)?)
    }
}
