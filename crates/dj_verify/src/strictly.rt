//! Whether a table of frames is one by Java's assignability too (JLS 4.10).

ghost use Rattle.std.specs.Prelude.{IfErr, OnOk};
ghost use Rattle.dj_instructions.specs.Instructions.{IsRising, view_instructions};
ghost use Rattle.dj_code.specs.MethodCode.{view_code, view_typed};
ghost use Rattle.dj_tags.specs.Laxly as strict;
ghost use Rattle.dj_verify.specs.Checking.{HasTableSo};
ghost use Rattle.dj_verify.specs.Tabled.{HasTable};
ghost use Rattle.dj_verify.specs.Verified.{IsTyped, IsVerifyFault};

use crate::fault::VerifyFault;
use crate::keeping::Passing;
use crate::verifying::check_code;
use dj_code::{Code, Typed};
use dj_effects::Known;
use dj_headers::Headers;
use dj_tags::Strictly;
use std::alloc::Global;

/// Answers that there is a table of frames for code by what Java asks of references. An error is its first violation.
fn check_strictly(alloc: Global, headers: &Headers, code: &Code) -> Result<(), VerifyFault>
    requires rising { IsRising (view_instructions code.now.instructions) }
    ensures table { OnOk result (HasTableSo (λ frames. Unit {0}) (strict.Strictly headers.now) headers.now (view_code code.now)) }
    ensures unverified { IfErr result (IsVerifyFault (strict.Strictly headers.now) headers.now (view_code code.now)) }
{
    let known = Known::new(alloc)?;
    let strictly = Strictly { headers };
    let found = check_code(alloc, &strictly, &known, code, &mut Passing);
    let Strictly { headers: _ } = strictly;
    found
}

/// Answers that the frames of code are a table by what Java asks of references too. An error tells the
/// first violation, by the order in which instructions stand, or that there is no memory.
pub fn strict(alloc: Global, headers: &Headers, typed: &Typed) -> Result<(), VerifyFault>
    requires rising { IsRising (view_instructions typed.now.code.instructions) }
    requires typed { HasTable (view_typed typed.now) }
    ensures typed { OnOk result (IsTyped (strict.Strictly headers.now) headers.now (view_typed typed.now)) }
    ensures unverified { IfErr result (IsVerifyFault (strict.Strictly headers.now) headers.now (view_code typed.now.code)) }
{
    check_strictly(alloc, headers, &typed.code)
}
