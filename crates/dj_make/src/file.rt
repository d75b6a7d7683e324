//! The class files, made by their indices and then written.

ghost use Rattle.std.specs.Prelude.{◌≡◌, ◌<◌, ◌^◌, ◌++◌, ◌∷◌, [], All, IfOk, OnOk, length};
ghost use Rattle.dj_pool.specs.declared.entry.Entry.TheVariants as entry;
ghost use Rattle.dj_write.specs.Files.{HasRoomForContent, view_file, view_member, view_members};
ghost use Rattle.dj_make.specs.Made.{adding, choosing, code_content, counting, made, made_bytes, method, other_texts, pool};

use crate::code::{adding_code, choosing_code, counting_code};
use dj_class::{Attribute, Entry};
use dj_names::{Items, Units};
use dj_write::{RawFile, RawMember, put_attributes, put_sized, put_u16, write_file};
use std::alloc::{AllocError, Global};

/// Adds a text of ASCII characters.
fn push_text(alloc: Global, pool: &mut Items<Entry>, text: &str) -> Result<(), AllocError>
    ensures pushed { OnOk result (pool.new ≡ pool.old ++ entry.Utf8 text.now ∷ []) }
{
    let mut units = Vec::new(alloc);
    for byte in text.as_bytes() {
        units.push(u16::from(*byte))?;
    }
    pool.push(Entry::Utf8(Units::from_vec(units)?))?;
    Ok(())
}

/// The pool: texts, and the two classes.
fn pool(alloc: Global, k: u32) -> Result<Items<Entry>, AllocError>
    ensures pool { IfOk result (λ made. made ≡ pool k) }
{
    let name = format!(in alloc; "g/C{k}")?;
    let mut pool = Items::new(alloc);
    pool.push(Entry::Skip)?;
    push_text(alloc, &mut pool, name.as_str())?;
    pool.push(Entry::Class(1))?;
    push_text(alloc, &mut pool, "java/lang/Object")?;
    pool.push(Entry::Class(3))?;
    push_texts(alloc, &mut pool)?;
    Ok(pool)
}

/// Adds the texts that attributes, descriptors and methods are named by.
fn push_texts(alloc: Global, pool: &mut Items<Entry>) -> Result<(), AllocError>
    ensures pushed { OnOk result (pool.new ≡ pool.old ++ other_texts) }
{
    push_text(alloc, pool, "Code")?;
    push_text(alloc, pool, "StackMapTable")?;
    push_text(alloc, pool, "(II)I")?;
    push_text(alloc, pool, "m0")?;
    push_text(alloc, pool, "m1")?;
    push_text(alloc, pool, "m2")?;
    Ok(())
}

/// The content of a Code: a stack of 2, 2 locals, the code, no exception table, and attributes.
fn code_content(
    alloc: Global,
    code: &[u8],
    attributes: &[Attribute],
) -> Result<Items<u8>, AllocError>
    requires long { length code.now < 2 ^ 32 }
    requires few { length attributes.now < 2 ^ 16 }
    requires room { All HasRoomForContent attributes.now }
    ensures content { IfOk result (λ content. content ≡ code_content code.now attributes.now) }
{
    let mut content = Vec::new(alloc);
    put_u16(&mut content, 2)?;
    put_u16(&mut content, 2)?;
    put_sized(&mut content, code)?;
    put_u16(&mut content, 0)?;
    put_attributes(&mut content, attributes)?;
    Ok(Items::from_vec(content))
}

/// One attribute, in a list.
fn attribute(alloc: Global, name: u16, content: Items<u8>) -> Result<Items<Attribute>, AllocError>
    ensures attribute { IfOk result (λ made. made ≡ record { name = name; content = content } ∷ []) }
{
    let mut attributes = Items::new(alloc);
    attributes.push(Attribute { name, content })?;
    Ok(attributes)
}

/// A method with this name and this content of its Code.
fn method(alloc: Global, name: u16, content: Items<u8>) -> Result<RawMember, AllocError>
    ensures method { IfOk result (λ made. view_member made ≡ method name content) }
{
    Ok(RawMember {
        flags: 0x9,
        name,
        descriptor: 7,
        attributes: attribute(alloc, 5, content)?,
    })
}

/// The method `m0`.
fn adding(alloc: Global, k: u32) -> Result<RawMember, AllocError>
    requires few { k < 1000 }
    ensures method { IfOk result (λ made. view_member made ≡ adding k) }
{
    let code = adding_code(alloc, k)?;
    let content = code_content(alloc, code.as_slice(), &[])?;
    method(alloc, 8, content)
}

/// The method `m1`, with frames at 0 and 11.
#[tactic(auto, unfolding(dj_layout::specs::Parts::number))]
fn counting(alloc: Global, k: u32) -> Result<RawMember, AllocError>
    ensures method { IfOk result (λ made. view_member made ≡ counting k) }
{
    let code = counting_code(alloc, k)?;
    let frames = attribute(alloc, 6, Items::from_slice(alloc, &[0, 2, 0, 10])?)?;
    let content = code_content(alloc, code.as_slice(), frames.as_slice())?;
    method(alloc, 9, content)
}

/// The method `m2`, with frames at 28, 30 and 33.
#[tactic(auto, unfolding(dj_layout::specs::Parts::number))]
fn choosing(alloc: Global, k: u32) -> Result<RawMember, AllocError>
    ensures method { IfOk result (λ made. view_member made ≡ choosing k) }
{
    let code = choosing_code(alloc, k)?;
    let frames = attribute(alloc, 6, Items::from_slice(alloc, &[0, 3, 28, 1, 2])?)?;
    let content = code_content(alloc, code.as_slice(), frames.as_slice())?;
    method(alloc, 10, content)
}

/// The methods.
fn methods(alloc: Global, k: u32) -> Result<Items<RawMember>, AllocError>
    requires few { k < 1000 }
    ensures methods { IfOk result (λ made. view_members made ≡ adding k ∷ counting k ∷ choosing k ∷ []) }
{
    let mut methods = Items::new(alloc);
    methods.push(adding(alloc, k)?)?;
    methods.push(counting(alloc, k)?)?;
    methods.push(choosing(alloc, k)?)?;
    Ok(methods)
}

/// The class file by its indices.
fn made(alloc: Global, k: u32) -> Result<RawFile, AllocError>
    requires few { k < 1000 }
    ensures made { IfOk result (λ file. view_file file ≡ made k) }
{
    let pool = pool(alloc, k)?;
    let methods = methods(alloc, k)?;
    Ok(RawFile {
        minor: 0,
        major: 52,
        pool,
        flags: 0x21,
        this_class: 2,
        super_class: 4,
        interfaces: Items::new(alloc),
        fields: Items::new(alloc),
        methods,
        attributes: Items::new(alloc),
    })
}

/// The bytes of the class file of this number.
pub fn make(alloc: Global, k: u32) -> Result<Vec<u8>, AllocError>
    requires few { k < 1000 }
    ensures made { IfOk result (λ bytes. bytes.items ≡ made_bytes k) }
{
    let file = made(alloc, k)?;
    write_file(alloc, &file)
}
