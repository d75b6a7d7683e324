//! The classes that a class file names (JVMS 4.3, 4.4.1, 4.4.6).

ghost use Rattle.std.specs.Prelude.{◌≡◌, ◌<◌, Some, IsTrue, IfOk, OnOk, IsSomeAnd, Any, length, slice_get, take};
ghost use Rattle.std.specs.Option.{option_copied};
ghost use Rattle.std.specs.Ordering.{nat_cmp};
ghost use Rattle.std.specs.Cmp.Lexicographic.{slice_cmp};
ghost use Rattle.std.specs.List.Sorted.{IsStrictlySortedBy};
ghost use Rattle.dj_class.specs.declared.method.Method.{Method};
ghost use Rattle.dj_names.specs.Types.{view_type, view_descriptor};
ghost use Rattle.dj_names.specs.ClassNames.{IsClassName};
ghost use Rattle.dj_pool.specs.PoolFormat.{text_at};
ghost use Rattle.dj_world.specs.Named.{class_of, NamesClass, IsInDescriptor, IsInClassText, IsInClassEntry, IsInNameAndType, IsInEntry, AreNamed};
ghost use Rattle.dj_world.specs.Learning.{Learns, LearnsSome};

use dj_class::{ClassFile, Entry, Method, Pool};
use dj_kinds::is_same_descriptor;
use dj_names::{ClassName, Descriptor, Field, Items, JType};
use std::alloc::{AllocError, Global};
use std::collections::BTreeSet;

/// The class that a type names, of an array that of its innermost elements.
fn class_of(kind: &JType) -> Option<&ClassName>
    ensures class { option_copied result ≡ class_of (view_type kind.now) }
{
    match kind {
        JType::Boolean => None,
        JType::Byte => None,
        JType::Char => None,
        JType::Short => None,
        JType::Int => None,
        JType::Long => None,
        JType::Float => None,
        JType::Double => None,
        JType::Class(name) => Some(name),
        JType::Array(element) => class_of(element.get()),
    }
}

/// Adds a name.
pub fn learn(
    alloc: Global,
    names: &mut BTreeSet<ClassName>,
    name: &ClassName,
) -> Result<(), AllocError>
    ensures learns { OnOk result (Learns names.old names.new (λ other. name.now ≡ other)) }
    ensures some { LearnsSome names.old names.new (λ other. name.now ≡ other) }
{
    names.insert(name.copy(alloc)?)?;
    Ok(())
}

/// Adds the class that a type names.
fn learn_type(
    alloc: Global,
    names: &mut BTreeSet<ClassName>,
    kind: &JType,
) -> Result<(), AllocError>
    ensures learns { OnOk result (Learns names.old names.new (λ name. class_of (view_type kind.now) ≡ Some name)) }
{
    match class_of(kind) {
        Some(name) => {
            learn(alloc, names, name)?;
            Ok(())
        }
        None => Ok(()),
    }
}

/// Adds the classes that types name.
fn learn_types(
    alloc: Global,
    names: &mut BTreeSet<ClassName>,
    kinds: &[JType],
) -> Result<(), AllocError>
    ensures learns { OnOk result (Learns names.old names.new (λ name. Any (λ kind. class_of (view_type kind) ≡ Some name) kinds.now)) }
{
    for kind in kinds {
        learn_type(alloc, names, kind)?;
    }
    Ok(())
}

/// Adds the class that a result names, if there is one.
fn learn_result(
    alloc: Global,
    names: &mut BTreeSet<ClassName>,
    kind: &Option<JType>,
) -> Result<(), AllocError>
    ensures learns { OnOk result (Learns names.old names.new (λ name. IsSomeAnd kind.now (λ kind. class_of (view_type kind) ≡ Some name))) }
{
    match kind {
        Some(kind) => {
            learn_type(alloc, names, kind)?;
            Ok(())
        }
        None => Ok(()),
    }
}

/// Adds the classes that a descriptor names.
fn learn_descriptor(
    alloc: Global,
    names: &mut BTreeSet<ClassName>,
    descriptor: &Descriptor,
) -> Result<(), AllocError>
    ensures learns { OnOk result (Learns names.old names.new (NamesClass (view_descriptor descriptor.now))) }
{
    match descriptor {
        Descriptor::Field(kind) => {
            learn_type(alloc, names, kind)?;
            Ok(())
        }
        Descriptor::Method {
            parameters,
            result: answer,
        } => {
            learn_types(alloc, names, parameters.as_slice())?;
            learn_result(alloc, names, answer)?;
            Ok(())
        }
    }
}

/// Adds the classes that the descriptor at an index of a pool names, if one is there.
fn learn_descriptor_at(
    alloc: Global,
    names: &mut BTreeSet<ClassName>,
    pool: &Pool,
    index: u16,
) -> Result<(), AllocError>
    ensures learns { OnOk result (Learns names.old names.new (λ name. IsSomeAnd (text_at pool.now index) (λ units. IsInDescriptor units name))) }
{
    match pool.descriptor_at(index) {
        Some(descriptor) => {
            learn_descriptor(alloc, names, descriptor)?;
            Ok(())
        }
        None => Ok(()),
    }
}

/// Adds the text at an index of a pool, if one is there.
fn learn_text(
    alloc: Global,
    names: &mut BTreeSet<ClassName>,
    pool: &Pool,
    index: u16,
) -> Result<(), AllocError>
    ensures learns { OnOk result (Learns names.old names.new (λ name. text_at pool.now index ≡ Some name)) }
{
    match pool.text_at(index) {
        Some(units) => {
            let name = ClassName::new(units.copy(alloc)?);
            learn(alloc, names, &name)?;
            Ok(())
        }
        None => Ok(()),
    }
}

/// Adds the class whose name is at an index of a pool, if one is there.
fn learn_name_at(
    alloc: Global,
    names: &mut BTreeSet<ClassName>,
    pool: &Pool,
    index: u16,
) -> Result<(), AllocError>
    ensures learns { OnOk result (Learns names.old names.new (λ name. IsSomeAnd (text_at pool.now index) (λ units. IsClassName units × (units ≡ name)))) }
{
    if pool.is_class_name_at(index) {
        learn_text(alloc, names, pool, index)?;
        Ok(())
    } else {
        Ok(())
    }
}

/// Adds the classes that the text of a Class entry names, which is at an index of a pool.
fn learn_class_at(
    alloc: Global,
    names: &mut BTreeSet<ClassName>,
    pool: &Pool,
    index: u16,
) -> Result<(), AllocError>
    ensures learns { OnOk result (Learns names.old names.new (λ name. IsSomeAnd (text_at pool.now index) (λ units. IsInClassText units name))) }
{
    learn_name_at(alloc, names, pool, index)?;
    learn_descriptor_at(alloc, names, pool, index)?;
    Ok(())
}

/// Adds the classes that an entry names, where it is a Class entry.
fn learn_class_entry(
    alloc: Global,
    names: &mut BTreeSet<ClassName>,
    pool: &Pool,
    entry: &Entry,
) -> Result<(), AllocError>
    ensures learns { OnOk result (Learns names.old names.new (IsInClassEntry pool.now entry.now)) }
{
    match entry.class_name() {
        Some(index) => {
            learn_class_at(alloc, names, pool, index)?;
            Ok(())
        }
        None => Ok(()),
    }
}

/// Adds the classes that an entry names, where it is a NameAndType entry.
fn learn_name_and_type(
    alloc: Global,
    names: &mut BTreeSet<ClassName>,
    pool: &Pool,
    entry: &Entry,
) -> Result<(), AllocError>
    ensures learns { OnOk result (Learns names.old names.new (IsInNameAndType pool.now entry.now)) }
{
    match entry.descriptor() {
        Some(index) => {
            learn_descriptor_at(alloc, names, pool, index)?;
            Ok(())
        }
        None => Ok(()),
    }
}

/// Adds the classes that an entry names.
fn learn_entry(
    alloc: Global,
    names: &mut BTreeSet<ClassName>,
    pool: &Pool,
    entry: &Entry,
) -> Result<(), AllocError>
    ensures learns { OnOk result (Learns names.old names.new (IsInEntry pool.now entry.now)) }
{
    learn_class_entry(alloc, names, pool, entry)?;
    learn_name_and_type(alloc, names, pool, entry)?;
    Ok(())
}

/// Adds the classes that the entries of a pool name.
fn learn_pool(alloc: Global, names: &mut BTreeSet<ClassName>, pool: &Pool) -> Result<(), AllocError>
    ensures learns { OnOk result (Learns names.old names.new (λ name. Any (λ entry. IsInEntry pool.now entry name) pool.now)) }
{
    for entry in pool.as_slice() {
        learn_entry(alloc, names, pool, entry)?;
    }
    Ok(())
}

/// Adds the classes that fields name.
fn learn_fields(
    alloc: Global,
    names: &mut BTreeSet<ClassName>,
    fields: &[Field],
) -> Result<(), AllocError>
    ensures learns { OnOk result (Learns names.old names.new (λ name. Any (λ field. class_of (view_type field.descriptor) ≡ Some name) fields.now)) }
{
    for field in fields {
        learn_type(alloc, names, &field.descriptor)?;
    }
    Ok(())
}

/// Whether the method before has the same descriptor.
fn is_told(methods: &[Method], at: usize) -> bool
    requires within { at < length methods.now }
    ensures told { IsTrue result → (method : Method) → slice_get methods.now at ≡ Some method
        → Any (λ other. view_descriptor other.descriptor ≡ view_descriptor method.descriptor) (take at methods.now) }
{
    at != 0 && is_same_descriptor(&methods[at - 1].descriptor, &methods[at].descriptor)
}

/// Adds the classes that methods name. A descriptor that stands behind itself is passed over.
fn learn_methods(
    alloc: Global,
    names: &mut BTreeSet<ClassName>,
    methods: &[Method],
) -> Result<(), AllocError>
    ensures learns { OnOk result (Learns names.old names.new (λ name. Any (λ method. NamesClass (view_descriptor method.descriptor) name) methods.now)) }
{
    for (at, method) in methods.iter().enumerate() {
        if !is_told(methods, at) {
            learn_descriptor(alloc, names, &method.descriptor)?;
        }
    }
    Ok(())
}

/// The names of a set, in rising order.
fn listed(alloc: Global, names: &BTreeSet<ClassName>) -> Result<Items<ClassName>, AllocError>
    ensures listed { IfOk result (λ listed. listed ≡ names.now.keys) }
    ensures rising { IfOk result (IsStrictlySortedBy (slice_cmp nat_cmp)) }
{
    let mut listed = Items::new(alloc);
    for name in names {
        listed.push(name.copy(alloc)?)?;
    }
    Ok(listed)
}

/// The classes that a class file names, in rising order of units.
pub fn named_of(alloc: Global, class: &ClassFile) -> Result<Items<ClassName>, AllocError>
    ensures named { IfOk result (AreNamed class.now) }
{
    let mut names = BTreeSet::new(alloc);
    learn(alloc, &mut names, &class.this_class)?;
    learn_pool(alloc, &mut names, &class.pool)?;
    learn_fields(alloc, &mut names, class.fields.as_slice())?;
    learn_methods(alloc, &mut names, class.methods.as_slice())?;
    let named = listed(alloc, &names)?;
    Ok(named)
}
