//! What a constant is found by (JVMS 4.7.2).

ghost use Rattle.std.specs.Prelude.{◌≡◌, IfOk};
ghost use Rattle.dj_write.specs.Found.{key_of};

use dj_names::{Constant, Units};
use std::alloc::{AllocError, Global};

/// A constant as it compares with others; a float and a double are kept by their bits.
#[derive(PartialEq, Eq, PartialOrd, Ord, Drop)]
pub enum ConstantKey {
    Int(i32),
    Long(i64),
    Text(Units),
    Float(u32),
    Double(u64),
}

/// What the constant is found by.
pub(crate) fn key_of(alloc: Global, constant: &Constant) -> Result<ConstantKey, AllocError>
    ensures key { IfOk result (λ key. key ≡ key_of constant.now) }
{
    match constant {
        Constant::Int(number) => Ok(ConstantKey::Int(*number)),
        Constant::Long(number) => Ok(ConstantKey::Long(*number)),
        Constant::Text(units) => Ok(ConstantKey::Text(units.copy(alloc)?)),
        Constant::Float(bits) => Ok(ConstantKey::Float(*bits)),
        Constant::Double(bits) => Ok(ConstantKey::Double(*bits)),
    }
}
