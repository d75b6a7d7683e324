//! Questions about a world, a line of words each: where members are found, which may be used, which types go where, and which method a call means.

use anyhow::Result;
use dj_headers::is_assignable;
use dj_kinds::Kinds;
use dj_names::{ClassMembers, Header, Items, JType, Member, StaticType};
use dj_types::resolve_call;
use dj_world::World;
use run_lines::{DescriptorText, TypeText, class_name_of, descriptor_of, type_of, units_of};
use std::alloc::Global;
use std::io::Write;

fn static_type_of(alloc: Global, text: &str) -> Result<StaticType> {
    if text == "null" {
        return Ok(StaticType::Null);
    }
    Ok(StaticType::Of(type_of(alloc, text)?))
}

fn static_types_of(alloc: Global, texts: &[&str]) -> Result<Items<StaticType>> {
    let mut types = Items::new(alloc);
    for text in texts {
        types.push(static_type_of(alloc, text)?)?;
    }
    Ok(types)
}

/// The type that is called through, none for `-`.
fn through_of(alloc: Global, text: &str) -> Result<Option<JType>> {
    if text == "-" {
        return Ok(None);
    }
    Ok(Some(type_of(alloc, text)?))
}

/// Tells a member of a class by the class, its name and its descriptor.
fn put_member<W: Write>(
    out: &mut W,
    header: &Header,
    own: &ClassMembers,
    member: Member,
) -> Result<()> {
    let class = &header.name;
    let number = member.number as usize;
    if member.method {
        if let Some(method) = own.methods.get(number) {
            let descriptor = DescriptorText(&method.descriptor);
            return Ok(writeln!(out, "{class} {} {descriptor}", method.name)?);
        }
    } else if let Some(field) = own.fields.get(number) {
        let kind = TypeText(&field.descriptor);
        return Ok(writeln!(out, "{class} {} {kind}", field.name)?);
    }
    Ok(writeln!(out, "none")?)
}

fn put_found<W: Write>(world: &World, out: &mut W, found: Option<Member>) -> Result<()> {
    if let Some(member) = found {
        let place = member.class as usize;
        if let Some(header) = world.headers().as_slice().get(place) {
            if let Some(own) = world.members().classes.get(place) {
                return put_member(out, header, own, member);
            }
        }
    }
    Ok(writeln!(out, "none")?)
}

fn put_truth<W: Write>(out: &mut W, truth: Option<bool>) -> Result<()> {
    let word = match truth {
        Some(true) => "yes",
        Some(false) => "no",
        None => "none",
    };
    Ok(writeln!(out, "{word}")?)
}

/// The member that is found, by `method` or `field`, a class, a name and a descriptor.
fn find(alloc: Global, world: &World, words: &[&str]) -> Result<Option<Member>> {
    let [kind, class, name, spelled] = words else {
        return Ok(None);
    };
    let class = class_name_of(alloc, class)?;
    let name = units_of(alloc, name)?;
    if *kind == "method" {
        let descriptor = descriptor_of(alloc, spelled)?;
        return Ok(world.find_method(&class, &name, &descriptor));
    }
    let kind = type_of(alloc, spelled)?;
    Ok(world.find_field(&class, &name, &kind))
}

/// Whether a member may be used in a class, through a type; none where the member isn't found.
fn accessible(alloc: Global, world: &World, words: &[&str]) -> Result<Option<bool>> {
    let [from, through, member @ ..] = words else {
        return Ok(None);
    };
    let from = class_name_of(alloc, from)?;
    let through = through_of(alloc, through)?;
    match find(alloc, world, member)? {
        Some(member) => Ok(Some(world.accessible(&from, member, through.as_ref()))),
        None => Ok(None),
    }
}

/// Whether the first type goes where the second is wanted.
fn assignable(alloc: Global, world: &World, words: &[&str]) -> Result<Option<bool>> {
    let [from, to] = words else {
        return Ok(None);
    };
    let from = static_type_of(alloc, from)?;
    let to = type_of(alloc, to)?;
    Ok(Some(is_assignable(world.headers(), &from, &to)))
}

/// Whether the first class is a subclass of the second, or has it above it (`implements`).
fn stands_above(alloc: Global, world: &World, words: &[&str]) -> Result<Option<bool>> {
    let [question, lower, upper] = words else {
        return Ok(None);
    };
    let lower = class_name_of(alloc, lower)?;
    let upper = class_name_of(alloc, upper)?;
    let kinds = Kinds::new(alloc, world.headers())?;
    Ok(Some(match *question {
        "subclass" => kinds.subclass(&lower, &upper),
        _ => kinds.implements(&lower, &upper),
    }))
}

/// Whether a method that throws a class must declare it.
fn checked(alloc: Global, world: &World, words: &[&str]) -> Result<Option<bool>> {
    let [class] = words else {
        return Ok(None);
    };
    let class = class_name_of(alloc, class)?;
    let kinds = Kinds::new(alloc, world.headers())?;
    Ok(Some(kinds.checked(&class)))
}

/// The method that a call means: where it stands, in which type and through which the method is searched for, its name and the types of the arguments.
fn choose(alloc: Global, world: &World, words: &[&str]) -> Result<Option<Member>> {
    let [from, receiver, through, name, arguments @ ..] = words else {
        return Ok(None);
    };
    let from = class_name_of(alloc, from)?;
    let receiver = type_of(alloc, receiver)?;
    let through = through_of(alloc, through)?;
    let name = units_of(alloc, name)?;
    let arguments = static_types_of(alloc, arguments)?;
    let types = arguments.as_slice();
    Ok(resolve_call(world, &from, &receiver, through.as_ref(), &name, types))
}

/// Answers the question of some words.
pub fn put_question<W: Write>(
    alloc: Global,
    world: &World,
    out: &mut W,
    words: &[&str],
) -> Result<()> {
    let [question, rest @ ..] = words else {
        return put_truth(out, None);
    };
    match *question {
        "accessible" => put_truth(out, accessible(alloc, world, rest)?),
        "assignable" => put_truth(out, assignable(alloc, world, rest)?),
        "checked" => put_truth(out, checked(alloc, world, rest)?),
        "subclass" | "implements" => put_truth(out, stands_above(alloc, world, words)?),
        "choose" => put_found(world, out, choose(alloc, world, rest)?),
        _ => put_found(world, out, find(alloc, world, words)?),
    }
}
