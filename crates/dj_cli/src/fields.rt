//! What is found of the fields of a class.

ghost use Rattle.std.specs.Prelude.{◌<◌, IfOk, length};
ghost use Rattle.dj_class.specs.Views.{view_class};
ghost use Rattle.dj_causes.specs.Tables.{AreCauses};
ghost use Rattle.dj_cli.specs.Lines.{lines_bytes};
ghost use Rattle.dj_cli.specs.Methods.{HaveLines, IsFieldLine};

use crate::endings::{MemberLine, Subject, field_ending};
use dj_causes::Causes;
use dj_class::ClassFile;
use dj_world::World;
use std::alloc::{AllocError, Global};

/// The line on the field at a place, where it has a cause.
fn field_line<'a>(
    alloc: Global,
    world: &World,
    class: &'a ClassFile,
    causes: &Causes,
    at: usize,
) -> Result<Option<MemberLine<'a>>, AllocError>
    requires made { AreCauses world.now (view_class class.now) causes.now }
    requires within { at < length class.now.fields }
    ensures line { IfOk result (IsFieldLine world.now (view_class class.now) at) }
{
    let cause = causes.field_cause(alloc, world, class, at)?;
    match cause {
        Some(cause) => {
            let ending = field_ending(alloc, &cause)?;
            let subject = Subject::Field(&class.fields.as_slice()[at]);
            Ok(Some(MemberLine { subject, ending }))
        }
        None => Ok(None),
    }
}

/// The lines on the fields of a class that aren't printed, in file order.
pub fn field_lines<'a>(
    alloc: Global,
    world: &World,
    class: &'a ClassFile,
    causes: &Causes,
) -> Result<Vec<MemberLine<'a>>, AllocError>
    requires made { AreCauses world.now (view_class class.now) causes.now }
    ensures lines { IfOk result (λ lines. HaveLines world.now (view_class class.now) (view_class class.now).fields (lines_bytes class.now.this_class lines.items)) }
{
    let mut lines = Vec::new(alloc);
    for at in 0..class.fields.len() {
        match field_line(alloc, world, class, causes, at)? {
            Some(line) => lines.push(line)?,
            None => {}
        }
    }
    Ok(lines)
}
