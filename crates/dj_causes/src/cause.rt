//! Why a class, a field or a method isn't printed.

ghost use Rattle.std.specs.Prelude.{◌≡◌, IfOk};

use dj_names::{ClassName, Units};
use std::alloc::{AllocError, Global};

/// Why a class isn't printed.
#[derive(Drop)]
pub enum ClassCause {
    Enum,
    Annotation,
    /// It holds what is said of a package or a module.
    Package,
    /// It has no superclass.
    Root,
    /// Its text would have this name, which it can't say.
    Name(Units),
    /// It is an interface, and its field of this name has no constant, or that of a float or a double.
    Constant(Units),
}

/// Why a field isn't printed.
#[derive(Drop)]
pub enum FieldCause {
    /// Its text would have this name, which it can't say.
    Name(Units),
    /// A field before it has its name.
    Signature,
    /// Its constant can't be its value in a text.
    Constant,
}

/// Why a method isn't printed. A number is the offset of an instruction, but for the last.
#[derive(Drop)]
pub enum Cause {
    Float(u32),
    Dynamic(u32),
    Missing(ClassName),
    Name(Units),
    Signature,
    Member(u32),
    Interface(u32),
    Monitor(u32),
    BeforeSuper(u32),
    Unborn(u32),
    /// So many blocks, or so many instructions in a birth.
    Large(u32),
}

impl FieldCause {
    /// An equal cause, which shares its name with this one.
    pub fn copy(&self, alloc: Global) -> Result<FieldCause, AllocError>
        ensures equal { IfOk result (λ copy. copy ≡ self.now) }
    {
        match self {
            FieldCause::Name(name) => Ok(FieldCause::Name(name.copy(alloc)?)),
            FieldCause::Signature => Ok(FieldCause::Signature),
            FieldCause::Constant => Ok(FieldCause::Constant),
        }
    }
}

impl Cause {
    /// An equal cause, which shares its name with this one.
    pub fn copy(&self, alloc: Global) -> Result<Cause, AllocError>
        ensures equal { IfOk result (λ copy. copy ≡ self.now) }
    {
        match self {
            Cause::Float(pc) => Ok(Cause::Float(*pc)),
            Cause::Dynamic(pc) => Ok(Cause::Dynamic(*pc)),
            Cause::Missing(class) => Ok(Cause::Missing(class.copy(alloc)?)),
            Cause::Name(name) => Ok(Cause::Name(name.copy(alloc)?)),
            Cause::Signature => Ok(Cause::Signature),
            Cause::Member(pc) => Ok(Cause::Member(*pc)),
            Cause::Interface(pc) => Ok(Cause::Interface(*pc)),
            Cause::Monitor(pc) => Ok(Cause::Monitor(*pc)),
            Cause::BeforeSuper(pc) => Ok(Cause::BeforeSuper(*pc)),
            Cause::Unborn(pc) => Ok(Cause::Unborn(*pc)),
            Cause::Large(count) => Ok(Cause::Large(*count)),
        }
    }
}
