//! The names of the classes that tables are asked for most, made once.

ghost use Rattle.std.specs.Prelude.{◌≡◌, List, IfOk, OnOk, OnErr, IsSomeAnd};
ghost use Rattle.dj_names.specs.declared.header.Header.{Header};
ghost use Rattle.dj_headers.specs.Roots.{AreRoots, KnowsRoots};

use dj_names::{ClassName, Units};
use std::alloc::{AllocError, Global};

/// The names of the class above all classes, and of the class above all that can be thrown.
#[derive(Drop)]
pub struct Roots {
    pub object: ClassName,
    pub throwable: ClassName,
}

/// The class whose name has the bytes of this text as its units.
pub fn class_of(alloc: Global, text: &str) -> Result<ClassName, AllocError>
    ensures name { IfOk result (λ name. name ≡ text.now) }
{
    let mut units = Vec::new(alloc);
    for byte in text.as_bytes() {
        units.push(u16::from(*byte))?;
    }
    Ok(ClassName::new(Units::from_vec(units)?))
}

/// Makes the names where they aren't made yet.
pub fn learn_roots(alloc: Global, roots: &mut Option<Roots>) -> Result<(), AllocError>
    ensures ok { OnOk result ((headers : List Header) → KnowsRoots headers roots.old → IsSomeAnd roots.new AreRoots) }
    ensures kept { OnErr result (roots.new ≡ roots.old) }
{
    match roots {
        Some(_) => Ok(()),
        None => {
            let object = class_of(alloc, "java/lang/Object")?;
            let throwable = class_of(alloc, "java/lang/Throwable")?;
            *roots = Some(Roots { object, throwable });
            Ok(())
        }
    }
}
