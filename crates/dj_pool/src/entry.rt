//! Entries of the constant pool of a class file (JVMS 4.4).

ghost use Rattle.std.specs.Prelude.{◌≡◌, IfOk};
ghost use Rattle.std.specs.Option.{option_copied};
ghost use Rattle.dj_pool.specs.PoolFormat.{tag_of, text_of, first_with, second_with};

use dj_names::Units;
use std::alloc::{AllocError, Global};

/// An entry of the constant pool; Skip stands at an index without one. A float and a double are
/// kept by their bits, and Text is a String entry.
#[derive(Drop)]
pub enum Entry {
    Skip,
    Utf8(Units),
    Integer(i32),
    Float(u32),
    Long(i64),
    Double(u64),
    Class(u16),
    Text(u16),
    FieldRef(u16, u16),
    MethodRef(u16, u16),
    InterfaceMethodRef(u16, u16),
    NameAndType(u16, u16),
    MethodHandle(u8, u16),
    MethodType(u16),
    InvokeDynamic(u16, u16),
}

impl Entry {
    /// The units of a text.
    pub fn text(&self) -> Option<&Units>
        ensures text { option_copied result ≡ text_of self.now }
    {
        match self {
            Entry::Utf8(units) => Some(units),
            Entry::Skip
            | Entry::Integer(_)
            | Entry::Float(_)
            | Entry::Long(_)
            | Entry::Double(_)
            | Entry::Class(_)
            | Entry::Text(_)
            | Entry::FieldRef(_, _)
            | Entry::MethodRef(_, _)
            | Entry::InterfaceMethodRef(_, _)
            | Entry::NameAndType(_, _)
            | Entry::MethodHandle(_, _)
            | Entry::MethodType(_)
            | Entry::InvokeDynamic(_, _) => None,
        }
    }

    /// The tag that the entry has, 0 at an index without one.
    pub fn tag(&self) -> u8
        ensures tag { result ≡ tag_of self.now }
    {
        match self {
            Entry::Skip => 0,
            Entry::Utf8(_) => 1,
            Entry::Integer(_) => 3,
            Entry::Float(_) => 4,
            Entry::Long(_) => 5,
            Entry::Double(_) => 6,
            Entry::Class(_) => 7,
            Entry::Text(_) => 8,
            Entry::FieldRef(_, _) => 9,
            Entry::MethodRef(_, _) => 10,
            Entry::InterfaceMethodRef(_, _) => 11,
            Entry::NameAndType(_, _) => 12,
            Entry::MethodHandle(_, _) => 15,
            Entry::MethodType(_) => 16,
            Entry::InvokeDynamic(_, _) => 18,
        }
    }

    /// The index of the name of a class.
    pub fn class_name(&self) -> Option<u16>
        ensures name { result ≡ first_with 7 self.now }
    {
        match self {
            Entry::Class(name) => Some(*name),
            Entry::Skip
            | Entry::Utf8(_)
            | Entry::Integer(_)
            | Entry::Float(_)
            | Entry::Long(_)
            | Entry::Double(_)
            | Entry::Text(_)
            | Entry::FieldRef(_, _)
            | Entry::MethodRef(_, _)
            | Entry::InterfaceMethodRef(_, _)
            | Entry::NameAndType(_, _)
            | Entry::MethodHandle(_, _)
            | Entry::MethodType(_)
            | Entry::InvokeDynamic(_, _) => None,
        }
    }

    /// The index of the descriptor of a name and type.
    pub fn descriptor(&self) -> Option<u16>
        ensures descriptor { result ≡ second_with 12 self.now }
    {
        match self {
            Entry::NameAndType(_, descriptor) => Some(*descriptor),
            Entry::Skip
            | Entry::Utf8(_)
            | Entry::Integer(_)
            | Entry::Float(_)
            | Entry::Long(_)
            | Entry::Double(_)
            | Entry::Class(_)
            | Entry::Text(_)
            | Entry::FieldRef(_, _)
            | Entry::MethodRef(_, _)
            | Entry::InterfaceMethodRef(_, _)
            | Entry::MethodHandle(_, _)
            | Entry::MethodType(_)
            | Entry::InvokeDynamic(_, _) => None,
        }
    }

    /// An equal entry, which shares its units with this one.
    pub fn copy(&self, alloc: Global) -> Result<Entry, AllocError>
        ensures equal { IfOk result (λ copy. copy ≡ self.now) }
    {
        match self {
            Entry::Skip => Ok(Entry::Skip),
            Entry::Utf8(units) => Ok(Entry::Utf8(units.copy(alloc)?)),
            Entry::Integer(number) => Ok(Entry::Integer(*number)),
            Entry::Float(bits) => Ok(Entry::Float(*bits)),
            Entry::Long(number) => Ok(Entry::Long(*number)),
            Entry::Double(bits) => Ok(Entry::Double(*bits)),
            Entry::Class(name) => Ok(Entry::Class(*name)),
            Entry::Text(units) => Ok(Entry::Text(*units)),
            Entry::FieldRef(class, member) => Ok(Entry::FieldRef(*class, *member)),
            Entry::MethodRef(class, member) => Ok(Entry::MethodRef(*class, *member)),
            Entry::InterfaceMethodRef(class, member) => {
                Ok(Entry::InterfaceMethodRef(*class, *member))
            }
            Entry::NameAndType(name, descriptor) => Ok(Entry::NameAndType(*name, *descriptor)),
            Entry::MethodHandle(kind, reference) => Ok(Entry::MethodHandle(*kind, *reference)),
            Entry::MethodType(descriptor) => Ok(Entry::MethodType(*descriptor)),
            Entry::InvokeDynamic(bootstrap, member) => {
                Ok(Entry::InvokeDynamic(*bootstrap, *member))
            }
        }
    }
}

/// What is asked of a number in an entry once the whole pool is known.
#[derive(Clone, Copy, PartialEq, Eq)]
pub enum Ask {
    /// Nothing: it is no index into the pool.
    Free,
    /// A text.
    Text,
    /// A text that is a class's name or an array's descriptor.
    ClassText,
    /// A text that is a descriptor.
    AnyText,
    /// A text that is a method's descriptor.
    MethodText,
    /// A class.
    Class,
    /// A name and type that leads to a field's descriptor.
    FieldMember,
    /// A name and type that leads to a method's descriptor.
    MethodMember,
    /// A reference to a field or a method.
    Reference,
}
