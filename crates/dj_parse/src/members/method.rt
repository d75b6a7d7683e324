//! Methods, constructors and static initialisers, read from words (JLS 8.4, 8.7, 8.8, 9.4).

ghost use Rattle.std.specs.Prelude.{◌≡◌, IfOk, map, option_map};
ghost use Rattle.dj_names.specs.Types.{view_descriptor, view_type};
ghost use Rattle.dj_syntax.specs.Trees.{view_body, view_method, view_stm};
ghost use Rattle.dj_grammar.specs.Members.{body_of, head_of, method_of, read_body, read_initialiser, read_method, with_flags};
ghost use Rattle.dj_parse.specs.Views.{view_place};

use crate::members::Place;
use dj_names::{ClassName, Descriptor, Items, JType, SharedList, Units, copy_names};
use dj_statements::read_statements;
use dj_syntax::{Body, MethodText, Stm, held_method};
use dj_tokens::{KnownNames, Reader, read_names, read_parameters};
use std::alloc::{AllocError, Global};

/// The name of a constructor.
pub const CONSTRUCTOR: &[u8] = b"<init>";

/// The name of a static initialiser.
const INITIALISER: &[u8] = b"<clinit>";

/// What a method's text says before its body: the bits of its modifiers, its name, the exceptions
/// that it lists and its descriptor.
#[derive(Drop)]
struct Head {
    bits: u16,
    name: Units,
    thrown: Items<ClassName>,
    descriptor: Descriptor,
}

impl Head {
    /// An equal head.
    fn copy(&self, alloc: Global) -> Result<Head, AllocError>
        ensures equal { IfOk result (λ copy. copy ≡ self.now) }
    {
        Ok(Head {
            bits: self.bits,
            name: self.name.copy(alloc)?,
            thrown: copy_names(alloc, self.thrown.as_slice())?,
            descriptor: self.descriptor.copy(alloc)?,
        })
    }
}

/// A method from the parenthesis of its parameters on.
pub fn read_method(
    alloc: Global,
    place: &Place,
    names: &mut KnownNames,
    bits: u16,
    name: Units,
    kind: Option<JType>,
    reader: &mut Reader,
) -> Result<MethodText, AllocError>
    ensures read { IfOk result (λ method. (view_method method, reader.new) ≡ read_method (view_place place.now) bits name (option_map view_type kind) reader.old) }
{
    reader.advance();
    let parameters = read_parameters(alloc, reader)?;
    let thrown = read_names(alloc, reader, b"throws")?;
    let statements = read_body(alloc, names, reader)?;
    let head = Head {
        bits,
        name,
        thrown,
        descriptor: Descriptor::Method {
            parameters: SharedList::from_vec(alloc, parameters)?,
            result: kind,
        },
    };
    with_body(alloc, place, head, statements)
}

/// A static initialiser from its brace on.
pub fn read_initialiser(
    alloc: Global,
    place: &Place,
    names: &mut KnownNames,
    bits: u16,
    reader: &mut Reader,
) -> Result<MethodText, AllocError>
    ensures read { IfOk result (λ method. (view_method method, reader.new) ≡ read_initialiser (view_place place.now) bits reader.old) }
{
    let statements = read_body(alloc, names, reader)?;
    let head = Head {
        bits,
        name: names.word(alloc, INITIALISER)?,
        thrown: Items::new(alloc),
        descriptor: Descriptor::Method {
            parameters: SharedList::from_vec(alloc, Vec::new(alloc))?,
            result: None,
        },
    };
    with_body(alloc, place, head, statements)
}

/// The statements of a body, where there is one: in braces, or a semicolon.
fn read_body(
    alloc: Global,
    names: &mut KnownNames,
    reader: &mut Reader,
) -> Result<Option<Items<Stm>>, AllocError>
    ensures read { IfOk result (λ body. (option_map (map view_stm) body, reader.new) ≡ read_body reader.old) }
{
    let in_braces = reader.is_at(b"{");
    reader.advance();
    if in_braces {
        Ok(Some(read_statements(alloc, names, reader)?))
    } else {
        Ok(None)
    }
}

/// A method with this head, and with this body.
fn with_body(
    alloc: Global,
    place: &Place,
    head: Head,
    statements: Option<Items<Stm>>,
) -> Result<MethodText, AllocError>
    ensures method { IfOk result (λ method. view_method method ≡ method_of (view_place place.now) head.bits head.name (view_descriptor head.descriptor) head.thrown (option_map (map view_stm) statements)) }
{
    let body = match statements {
        Some(statements) => Some(body_of(alloc, place, &head, statements)?),
        None => None,
    };
    Ok(with_flags(place, head, body))
}

/// A body with the head of its method.
fn body_of(
    alloc: Global,
    place: &Place,
    head: &Head,
    statements: Items<Stm>,
) -> Result<Body, AllocError>
    ensures body { IfOk result (λ body. view_body body ≡ body_of (view_place place.now) (head_of head.now.bits head.now.name (view_descriptor head.now.descriptor) head.now.thrown None) (map view_stm statements)) }
{
    let class = place.class.copy(alloc)?;
    let Head {
        bits,
        name,
        thrown,
        descriptor,
    } = head.copy(alloc)?;
    Ok(Body {
        class,
        flags: bits,
        name,
        descriptor,
        thrown,
        statements,
    })
}

/// A method of these parts, whose flags, and its body's, are those that the bits of its head stand for.
fn with_flags(place: &Place, head: Head, body: Option<Body>) -> MethodText
    ensures method { view_method result ≡ with_flags (view_place place.now) head.bits head.name (view_descriptor head.descriptor) head.thrown (option_map view_body body) }
{
    let Head {
        bits,
        name,
        thrown,
        descriptor,
    } = head;
    let mut method = MethodText {
        flags: bits,
        name,
        descriptor,
        thrown,
        body,
    };
    method.flags = held_method(place.interface, &method);
    if let Some(body) = &mut method.body {
        body.flags = method.flags;
    }
    method
}
