//! Which flags a class, a field and a method may have (JVMS 4.1, 4.5, 4.6).

ghost use Rattle.std.specs.Prelude.{◌↔◌, IsTrue, IsBitSet};
ghost use Rattle.dj_class.specs.FileFormat.{HasClassFlags, HasOneAccess, HasFieldFlags, IsBodiless};

const PUBLIC: u16 = 0x1;

const PRIVATE: u16 = 0x2;

const PROTECTED: u16 = 0x4;

const FINAL: u16 = 0x10;

const VOLATILE: u16 = 0x40;

const NATIVE: u16 = 0x100;

const INTERFACE: u16 = 0x200;

const ABSTRACT: u16 = 0x400;

/// Whether the flags are an interface's.
pub fn is_interface(flags: u16) -> bool
    ensures exact { IsTrue result ↔ IsBitSet flags 9 }
{
    flags & INTERFACE != 0
}

fn is_abstract(flags: u16) -> bool
    ensures exact { IsTrue result ↔ IsBitSet flags 10 }
{
    flags & ABSTRACT != 0
}

fn is_final(flags: u16) -> bool
    ensures exact { IsTrue result ↔ IsBitSet flags 4 }
{
    flags & FINAL != 0
}

/// Whether a class may have the flags.
pub fn are_class_flags(flags: u16) -> bool
    ensures exact { IsTrue result ↔ HasClassFlags flags }
{
    if is_interface(flags) {
        is_abstract(flags) && !is_final(flags)
    } else {
        !(is_abstract(flags) && is_final(flags))
    }
}

fn is_public(flags: u16) -> bool
    ensures exact { IsTrue result ↔ IsBitSet flags 0 }
{
    flags & PUBLIC != 0
}

fn is_private(flags: u16) -> bool
    ensures exact { IsTrue result ↔ IsBitSet flags 1 }
{
    flags & PRIVATE != 0
}

fn is_protected(flags: u16) -> bool
    ensures exact { IsTrue result ↔ IsBitSet flags 2 }
{
    flags & PROTECTED != 0
}

/// Whether at most one kind of access is set.
pub fn are_one_access(flags: u16) -> bool
    ensures exact { IsTrue result ↔ HasOneAccess flags }
{
    if is_public(flags) {
        !is_private(flags) && !is_protected(flags)
    } else {
        !(is_private(flags) && is_protected(flags))
    }
}

fn is_volatile(flags: u16) -> bool
    ensures exact { IsTrue result ↔ IsBitSet flags 6 }
{
    flags & VOLATILE != 0
}

/// Whether a field may have the flags.
pub fn are_field_flags(flags: u16) -> bool
    ensures exact { IsTrue result ↔ HasFieldFlags flags }
{
    are_one_access(flags) && !(is_final(flags) && is_volatile(flags))
}

/// Whether a method with the flags has no body.
pub fn are_bodiless(flags: u16) -> bool
    ensures exact { IsTrue result ↔ IsBodiless flags }
{
    flags & NATIVE != 0 || flags & ABSTRACT != 0
}
