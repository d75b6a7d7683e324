//! A class by its indices, as it was read (JVMS 4.1, 4.5, 4.6).

ghost use Rattle.std.specs.Prelude.{◌≡◌, All, IfOk, map};
ghost use Rattle.dj_class.specs.Described.{DescribesField, DescribesMethod};
ghost use Rattle.dj_class.specs.FileFormat as layout;
ghost use Rattle.dj_class.specs.Views.{view_class, view_field, view_method};
ghost use Rattle.dj_write.specs.Files.{view_file, view_member};
ghost use Rattle.dj_write.specs.Written.{AreRaws, HasFile, HasSuper, IsDescribed, IsFileOf, IsRaw, IsSuper};

use crate::attributes::{class_indices, field_attributes, method_attributes};
use crate::file::RawFile;
use crate::index::Index;
use crate::members::RawMember;
use dj_class::{ClassFile, Entry, Method};
use dj_names::{ClassName, Field, Items};
use std::alloc::{AllocError, Global};

/// A field by its indices.
fn raw_field(alloc: Global, index: &Index, field: &Field) -> Result<RawMember, AllocError>
    requires described { IsDescribed (layout.field index.now) (DescribesField index.now) (view_field field.now) }
    ensures raw { IfOk result (λ raw. IsRaw (layout.field index.now) (DescribesField index.now) (view_field field.now) (view_member raw)) }
{
    let name = index.text(&field.name);
    let descriptor = index.field_type(alloc, &field.descriptor)?;
    let attributes = field_attributes(alloc, index, &field.constant)?;
    Ok(RawMember {
        flags: field.flags,
        name,
        descriptor,
        attributes,
    })
}

/// Fields by their indices.
fn raw_fields(
    alloc: Global,
    index: &Index,
    fields: &[Field],
) -> Result<Items<RawMember>, AllocError>
    requires described { All (IsDescribed (layout.field index.now) (DescribesField index.now)) (map view_field fields.now) }
    ensures raws { IfOk result (AreRaws (layout.field index.now) (DescribesField index.now) (map view_field fields.now)) }
{
    let mut raws = Items::new(alloc);
    for field in fields {
        raws.push(raw_field(alloc, index, field)?)?;
    }
    Ok(raws)
}

/// A method by its indices.
fn raw_method(alloc: Global, index: &Index, method: &Method) -> Result<RawMember, AllocError>
    requires described { IsDescribed (layout.method index.now) (DescribesMethod index.now) (view_method method.now) }
    ensures raw { IfOk result (λ raw. IsRaw (layout.method index.now) (DescribesMethod index.now) (view_method method.now) (view_member raw)) }
{
    let name = index.text(&method.name);
    let descriptor = index.descriptor(alloc, &method.descriptor)?;
    let attributes = method_attributes(alloc, index, method)?;
    Ok(RawMember {
        flags: method.flags,
        name,
        descriptor,
        attributes,
    })
}

/// Methods by their indices.
fn raw_methods(
    alloc: Global,
    index: &Index,
    methods: &[Method],
) -> Result<Items<RawMember>, AllocError>
    requires described { All (IsDescribed (layout.method index.now) (DescribesMethod index.now)) (map view_method methods.now) }
    ensures raws { IfOk result (AreRaws (layout.method index.now) (DescribesMethod index.now) (map view_method methods.now)) }
{
    let mut raws = Items::new(alloc);
    for method in methods {
        raws.push(raw_method(alloc, index, method)?)?;
    }
    Ok(raws)
}

/// The index of the superclass, 0 where there is none.
fn super_index(index: &Index, super_class: &Option<ClassName>) -> u16
    requires there { HasSuper index.now super_class.now }
    ensures leads { IsSuper index.now super_class.now result }
{
    match super_class {
        Some(name) => index.class(name),
        None => 0,
    }
}

/// Equal entries, in order.
fn copy_entries(alloc: Global, entries: &[Entry]) -> Result<Items<Entry>, AllocError>
    ensures equal { IfOk result (λ copy. copy ≡ entries.now) }
{
    let mut copy = Items::new(alloc);
    for entry in entries {
        copy.push(entry.copy(alloc)?)?;
    }
    Ok(copy)
}

/// A class by its indices.
pub(crate) fn raw_class(alloc: Global, class: &ClassFile) -> Result<RawFile, AllocError>
    requires from_file { HasFile (view_class class.now) }
    ensures file { IfOk result (λ raw. IsFileOf (view_class class.now) (view_file raw)) }
{
    let index = Index::new(alloc, &class.pool)?;
    let interfaces = class_indices(alloc, &index, class.interfaces.as_slice())?;
    let fields = raw_fields(alloc, &index, class.fields.as_slice())?;
    let methods = raw_methods(alloc, &index, class.methods.as_slice())?;
    let pool = copy_entries(alloc, class.pool.as_slice())?;
    Ok(RawFile {
        minor: class.minor,
        major: class.major,
        pool,
        flags: class.flags,
        this_class: index.class(&class.this_class),
        super_class: super_index(&index, &class.super_class),
        interfaces,
        fields,
        methods,
        attributes: Items::new(alloc),
    })
}
