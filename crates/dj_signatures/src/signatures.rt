//! Which methods of a class can't stand in one text with its others (JVMS 4.6; JLS 8.4.2, 8.7, 8.8, 9.4).

ghost use Rattle.std.specs.Prelude.{◌≡◌, ◌≢◌, ◌↔◌, ◌⊎◌, [], Some, None, map, IsTrue, IsBitSet, IfOk, slice_get};
ghost use Rattle.dj_names.specs.MethodNames.{is_constructor, is_initialiser};
ghost use Rattle.dj_names.specs.Types.{Method as MethodType, view_descriptor, result_of};
ghost use Rattle.dj_class.specs.Views.{view_method, view_class};
ghost use Rattle.dj_signatures.specs.Signatures.{HasRival, TellsRivals, BreaksConstructor, BreaksInitialiser, BreaksInterface, BreaksSignature, method_names};

use dj_class::{ClassFile, Method, is_interface};
use dj_members::NameTable;
use dj_names::{Descriptor, is_constructor, is_initialiser};
use std::alloc::{AllocError, Global};

const PUBLIC: u16 = 0x0001;

const STATIC: u16 = 0x0008;

/// The names of methods, in order.
pub fn table_of(alloc: Global, methods: &[Method]) -> Result<NameTable, AllocError>
    ensures names { IfOk result (λ names. names ≡ method_names (map view_method methods.now)) }
{
    let mut names = NameTable::new(alloc);
    for method in methods {
        names.push(&method.name)?;
    }
    Ok(names)
}

/// Whether a descriptor takes nothing and gives nothing.
fn is_bare_descriptor(descriptor: &Descriptor) -> bool
    ensures bare { IsTrue result ↔ (view_descriptor descriptor.now ≡ MethodType [] None) }
{
    match descriptor {
        Descriptor::Field(_) => false,
        Descriptor::Method { parameters, result } => {
            parameters.as_slice().is_empty() && result.is_none()
        }
    }
}

/// Whether a descriptor has a result.
fn has_result(descriptor: &Descriptor) -> bool
    ensures answers { IsTrue result ↔ (result_of (view_descriptor descriptor.now) ≢ None) }
{
    match descriptor {
        Descriptor::Field(_) => true,
        Descriptor::Method { result, .. } => result.is_some(),
    }
}

/// Whether a method is what a method of an interface mustn't be.
fn breaks_interface(method: &Method) -> bool
    ensures breaks { IsTrue result ↔ BreaksInterface (view_method method.now) }
{
    is_initialiser(&method.name) || is_constructor(&method.name) || method.flags & PUBLIC == 0
}

/// Whether a method is what a static initialiser mustn't be.
fn breaks_initialiser(method: &Method) -> bool
    ensures breaks { IsTrue result ↔ BreaksInitialiser (view_method method.now) }
{
    !is_bare_descriptor(&method.descriptor)
        || method.flags & STATIC == 0
        || !method.thrown.is_empty()
        || method.code.is_none()
}

/// Whether a method is what a constructor mustn't be.
fn breaks_constructor(method: &Method) -> bool
    ensures breaks { IsTrue result ↔ BreaksConstructor (view_method method.now) }
{
    has_result(&method.descriptor) || method.flags & STATIC != 0
}

/// Whether a method is in an interface, and is what none may be there.
fn breaks_in_interface(flags: u16, method: &Method) -> bool
    ensures breaks { IsTrue result ↔ (IsBitSet flags 9 × BreaksInterface (view_method method.now)) }
{
    is_interface(flags) && breaks_interface(method)
}

/// Whether a method is named as a static initialiser, and is what none may be.
fn breaks_as_initialiser(method: &Method) -> bool
    ensures breaks { IsTrue result ↔ (IsTrue (is_initialiser method.now.name) × BreaksInitialiser (view_method method.now)) }
{
    is_initialiser(&method.name) && breaks_initialiser(method)
}

/// Whether a method is named as a constructor, and is what none may be.
fn breaks_as_constructor(method: &Method) -> bool
    ensures breaks { IsTrue result ↔ (IsTrue (is_constructor method.now.name) × BreaksConstructor (view_method method.now)) }
{
    is_constructor(&method.name) && breaks_constructor(method)
}

/// Whether a method is by itself what none of a class of these flags may be.
fn breaks_alone(flags: u16, method: &Method) -> bool
    ensures breaks { IsTrue result ↔ ((IsBitSet flags 9 × BreaksInterface (view_method method.now))
        ⊎ (IsTrue (is_initialiser method.now.name) × BreaksInitialiser (view_method method.now))
        ⊎ (IsTrue (is_constructor method.now.name) × BreaksConstructor (view_method method.now))) }
{
    breaks_in_interface(flags, method)
        || breaks_as_initialiser(method)
        || breaks_as_constructor(method)
}

/// Whether the method at a place has a rival.
fn is_rivalled(class: &ClassFile, rivals: &[bool], at: usize, method: &Method) -> bool
    requires rivals { TellsRivals (view_class class.now).methods rivals.now }
    requires there { slice_get (view_class class.now).methods at ≡ Some (view_method method.now) }
    ensures rival { IsTrue result ↔ HasRival (view_class class.now).methods at (view_method method.now) }
{
    rivals[at]
}

/// Whether the method at a place can't stand in the text of its class beside the others.
pub fn breaks_signature(class: &ClassFile, rivals: &[bool], at: usize, method: &Method) -> bool
    requires rivals { TellsRivals (view_class class.now).methods rivals.now }
    requires there { slice_get (view_class class.now).methods at ≡ Some (view_method method.now) }
    ensures breaks { IsTrue result ↔ BreaksSignature (view_class class.now) at (view_method method.now) }
{
    is_rivalled(class, rivals, at, method) || breaks_alone(class.flags, method)
}
