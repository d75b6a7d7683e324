//! Units, read from words (JLS 7.3, 8.1, 9.1).

ghost use Rattle.std.specs.Prelude.{◌≡◌, IfOk};
ghost use Rattle.dj_syntax.specs.Trees.{view_unit};
ghost use Rattle.dj_grammar.specs.Units.{class_flags, name_in, read_package, read_superclass, read_unit};

use crate::members::{Place, read_members, read_modifiers};
use dj_names::{ClassName, Units};
use dj_syntax::{Unit, held_class};
use dj_tokens::{Reader, SLASH, read_name, read_names, units_of};
use std::alloc::{AllocError, Global};

/// The flag of an interface (JVMS 4.1).
const INTERFACE: u16 = 0x0200;

/// A unit of at most so many members.
pub fn unit_from_words(alloc: Global, most: usize, reader: &mut Reader) -> Result<Unit, AllocError>
    ensures read { IfOk result (λ unit. view_unit unit ≡ read_unit most reader.old) }
{
    let package = read_package(alloc, reader)?;
    let bits = read_modifiers(reader);
    let interface = reader.is_at(b"interface");
    reader.advance();
    let name = units_of(alloc, reader.take())?;
    let superclass = read_superclass(alloc, interface, reader)?;
    let keyword: &[u8] = if interface { b"extends" } else { b"implements" };
    let interfaces = read_names(alloc, reader, keyword)?;
    reader.advance();
    let place = Place {
        interface,
        class: name_in(alloc, &package, &name)?,
    };
    let members = read_members(alloc, &place, most, reader)?;
    Ok(Unit {
        package,
        flags: class_flags(interface, bits),
        name,
        superclass,
        interfaces,
        fields: members.fields,
        helper: members.helper,
        methods: members.methods,
    })
}

/// The package, where the text names one.
fn read_package(alloc: Global, reader: &mut Reader) -> Result<Option<ClassName>, AllocError>
    ensures read { IfOk result (λ name. (name, reader.new) ≡ read_package reader.old) }
{
    if !reader.is_at(b"package") {
        return Ok(None);
    }
    reader.advance();
    let name = read_name(alloc, reader)?;
    reader.advance();
    Ok(Some(name))
}

/// The superclass, where a class names one.
fn read_superclass(
    alloc: Global,
    interface: bool,
    reader: &mut Reader,
) -> Result<Option<ClassName>, AllocError>
    ensures read { IfOk result (λ name. (name, reader.new) ≡ read_superclass interface reader.old) }
{
    if interface || !reader.is_at(b"extends") {
        return Ok(None);
    }
    reader.advance();
    Ok(Some(read_name(alloc, reader)?))
}

/// The flags of a class or interface, from the bits that its text shows.
fn class_flags(interface: bool, bits: u16) -> u16
    ensures flags { result ≡ class_flags interface bits }
{
    held_class(if interface { bits | INTERFACE } else { bits })
}

/// A class's name: its package's name, where there is one, and its own.
fn name_in(
    alloc: Global,
    in_package: &Option<ClassName>,
    own: &Units,
) -> Result<ClassName, AllocError>
    ensures name { IfOk result (λ class. class ≡ name_in in_package.now own.now) }
{
    let Some(name) = in_package else {
        return Ok(ClassName::new(own.copy(alloc)?));
    };
    let mut units = Vec::from_slice(alloc, name.as_slice())?;
    units.push(SLASH)?;
    units.extend_from_slice(own.as_slice())?;
    Ok(ClassName::new(Units::from_vec(units)?))
}
