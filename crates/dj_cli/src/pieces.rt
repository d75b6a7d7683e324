//! What is told of a class, made whole before a byte of it is put.

ghost use Rattle.std.specs.Prelude.{◌≡◌, ◌<◌, All, IfOk};
ghost use Rattle.dj_class.specs.Views.{view_class};
ghost use Rattle.dj_syntax.specs.Trees.{view_unit};
ghost use Rattle.dj_syntax.specs.WellFormed.{IsWellFormed};
ghost use Rattle.dj_causes.specs.ClassCauses.{HasClassCause};
ghost use Rattle.dj_causes.specs.Tables.{AreCauses};
ghost use Rattle.dj_class_text.specs.Formed.{IsFromFile};
ghost use Rattle.dj_cli.specs.Output.{PrintsClass, file_line};
ghost use Rattle.dj_cli.specs.Pieces.{IsClassTold, piece_of, piece_of_parts};

use crate::basis::Basis;
use crate::endings::MemberLine;
use crate::fields::field_lines;
use crate::methods::{Judgement, judge_methods};
use dj_causes::{Causes, ClassCause};
use dj_class::ClassFile;
use dj_class_text::class_text;
use dj_names::ClassName;
use dj_print::unit_bytes;
use dj_syntax::Unit;
use std::alloc::{AllocError, Global};

/// What is told of a class that is printed.
#[derive(Drop)]
pub struct ClassPiece<'a> {
    /// The line that names its file.
    pub line: Vec<u8>,
    pub unit: Vec<u8>,
    /// The lines of the report on its fields.
    pub fields: Vec<MemberLine<'a>>,
    /// The lines of the report on its methods.
    pub methods: Vec<MemberLine<'a>>,
    /// How many methods have none.
    pub printed: usize,
}

/// What is told of a class.
#[derive(Drop)]
pub enum ClassTold<'a> {
    Printed(ClassPiece<'a>),
    /// It isn't printed, for this cause.
    Refused(ClassCause),
}

/// The line that names the file in which a class's text belongs.
fn file_line(alloc: Global, name: &ClassName) -> Result<Vec<u8>, AllocError>
    requires ascii { All (λ unit. unit < 128) name.now }
    ensures line { IfOk result (λ line. line.items ≡ file_line name.now) }
{
    let mut line = Vec::new(alloc);
    line.extend_from_slice(b"// ")?;
    for unit in name.as_slice() {
        line.push(*unit as u8)?;
    }
    line.extend_from_slice(b".java\n")?;
    Ok(line)
}

/// What is told of a class of the world that no cause refuses.
fn printed_piece<'a>(
    alloc: Global,
    basis: &Basis<'_>,
    class: &'a ClassFile,
    causes: &Causes,
) -> Result<ClassPiece<'a>, AllocError>
    requires made { AreCauses basis.now.world.now (view_class class.now) causes.now }
    requires of_file { IsFromFile (view_class class.now) }
    requires none { (cause : ClassCause) → ¬ HasClassCause basis.now.world.now (view_class class.now) cause }
    ensures printed { IfOk result (λ piece. PrintsClass basis.now.world.now (view_class class.now) (piece_of class.now.this_class piece)) }
{
    let fields = field_lines(alloc, basis.world, class, causes)?;
    let Judgement { bodies, lines } = judge_methods(alloc, basis, class, causes)?;
    let printed = class.methods.len() - lines.len();
    let unit = class_text(alloc, basis.world, class, causes, bodies)?;
    let piece = piece_of_unit(alloc, &class.this_class, &unit, fields, lines, printed)?;
    Ok(piece)
}

/// What is told of a class of this name, whose unit and lines are these, and of which so many methods are printed.
fn piece_of_unit<'a>(
    alloc: Global,
    name: &ClassName,
    unit: &Unit,
    fields: Vec<MemberLine<'a>>,
    methods: Vec<MemberLine<'a>>,
    printed: usize,
) -> Result<ClassPiece<'a>, AllocError>
    requires ascii { All (λ letter. letter < 128) name.now }
    requires well_formed { IsWellFormed (view_unit unit.now) }
    ensures piece { IfOk result (λ piece. piece_of name.now piece ≡ piece_of_parts name.now (view_unit unit.now) fields.entry.items methods.entry.items printed) }
{
    let line = file_line(alloc, name)?;
    let unit = unit_bytes(alloc, unit)?;
    Ok(ClassPiece {
        line,
        unit,
        fields,
        methods,
        printed,
    })
}

/// What is told of a class of the world.
pub fn piece_of_class<'a>(
    alloc: Global,
    basis: &Basis<'_>,
    class: &'a ClassFile,
) -> Result<ClassTold<'a>, AllocError>
    requires of_file { IsFromFile (view_class class.now) }
    ensures told { IfOk result (IsClassTold basis.now.world.now (view_class class.now)) }
{
    let causes = Causes::new(alloc, basis.world, class)?;
    match causes.class_cause(alloc, basis.world, class)? {
        Some(cause) => Ok(ClassTold::Refused(cause)),
        None => {
            let piece = printed_piece(alloc, basis, class, &causes)?;
            Ok(ClassTold::Printed(piece))
        }
    }
}
