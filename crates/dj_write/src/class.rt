//! A class, written as a file (JVMS 4.1).

ghost use Rattle.std.specs.Prelude.{◌≡◌, ◌≤◌, ℕ, IfOk};
ghost use Rattle.dj_class.specs.Described.{ClassOf, SpellsClass};
ghost use Rattle.dj_class.specs.Views.{view_class};
ghost use Rattle.dj_write.specs.Written.{HasFile};

use crate::file::write_file;
use crate::raws::raw_class;
use dj_class::ClassFile;
use std::alloc::{AllocError, Global};

/// The bytes of a file of the class, which has the class's pool, and no attributes but those that the class tells of.
pub fn write_class(alloc: Global, class: &ClassFile) -> Result<Vec<u8>, AllocError>
    // The class is one that `read_class` could give.
    requires from_file { HasFile (view_class class.now) }
    // The bytes are a file of the class, for a reader that takes its version.
    ensures written { (oldest : ℕ) → oldest ≤ class.now.major → IfOk result (λ bytes. SpellsClass bytes.items oldest (view_class class.now)) }
    // They are a file of no other class.
    ensures alone { (oldest : ℕ) (other : ClassOf) → oldest ≤ class.now.major → IfOk result (λ bytes. SpellsClass bytes.items oldest other → other ≡ view_class class.now) }
{
    let raw = raw_class(alloc, class)?;
    write_file(alloc, &raw)
}
