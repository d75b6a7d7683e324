//! The table of frames of a method's code (JVMS 4.10.1.6).

ghost use Rattle.std.specs.Prelude.{◌≡◌, [], IfOk, IfErr, OnOk};
ghost use Rattle.dj_instructions.specs.Instructions.{IsRising, view_instructions};
ghost use Rattle.dj_code.specs.MethodCode.{view_code, view_typed};
ghost use Rattle.dj_tags.specs.Laxly as lax;
ghost use Rattle.dj_effects.specs.Doing.{IsKnown, view_working};
ghost use Rattle.dj_verify.specs.Rules.{entry};
ghost use Rattle.dj_verify.specs.Verified.{HasFrames, IsTyped, IsVerifyFault};
ghost use Rattle.dj_verify.specs.Checking.{IsReady, HasTableSo};
ghost use Rattle.dj_verify.specs.Landings.{HasLandings};

use crate::checking::check_place;
use crate::fault::VerifyFault;
use crate::keeping::{Keeping, Passing};
use crate::landing::landings;
use crate::padding::entry;
use crate::subject::Subject;
use dj_code::{Code, Typed};
use dj_effects::{Known, Working};
use dj_headers::Headers;
use dj_names::Items;
use dj_tags::{Goes, Laxly};
use std::alloc::{AllocError, Global};
use std::marker::Model;

/// Has the frames of the table of code taken that begins with this one, as far as its first violation.
fn check_all<G: Goes, K: Keeping>(
    alloc: Global,
    goes: &G,
    subject: &Subject<'_>,
    first: Working,
    kept: &mut K,
) -> Result<(), VerifyFault>
    requires ready { IsReady subject.now }
    requires landings { HasLandings (G.relation goes.now) subject.now }
    requires entry { view_working first ≡ entry (view_code subject.now.code.now) }
    requires none { K.keeps kept.old [] }
    ensures table { OnOk result (HasTableSo (K.keeps kept.new) (G.relation goes.now) (G.known goes.now) (view_code subject.now.code.now)) }
    ensures unverified { IfErr result (IsVerifyFault (G.relation goes.now) (G.known goes.now) (view_code subject.now.code.now)) }
{
    let count = subject.code.instructions.len();
    let mut flow = Some(first);
    for (i, at) in subject.code.instructions.as_slice().iter().enumerate() {
        let is_last = i + 1 == count;
        let broken = check_place(alloc, goes, subject, at, is_last, kept, &mut flow)?;
        if let Some(rule) = broken {
            return Err(VerifyFault::Unverified { pc: at.0, rule });
        }
    }
    Ok(())
}

/// Has the frames of the table of code taken that is looked up, as far as its first violation.
fn check_subject<G: Goes, K: Keeping>(
    alloc: Global,
    goes: &G,
    subject: &Subject<'_>,
    kept: &mut K,
) -> Result<(), VerifyFault>
    requires ready { IsReady subject.now }
    requires landings { HasLandings (G.relation goes.now) subject.now }
    requires none { K.keeps kept.old [] }
    ensures table { OnOk result (HasTableSo (K.keeps kept.new) (G.relation goes.now) (G.known goes.now) (view_code subject.now.code.now)) }
    ensures unverified { IfErr result (IsVerifyFault (G.relation goes.now) (G.known goes.now) (view_code subject.now.code.now)) }
{
    let first = entry(alloc, subject.code)?;
    let first = Working::from_frame(alloc, &first)?;
    check_all(alloc, goes, subject, first, kept)
}

/// Has the frames of the table of code taken, as far as its first violation.
pub fn check_code<G: Goes, K: Keeping>(
    alloc: Global,
    goes: &G,
    known: &Known,
    code: &Code,
    kept: &mut K,
) -> Result<(), VerifyFault>
    requires known { IsKnown known.now }
    requires rising { IsRising (view_instructions code.now.instructions) }
    requires none { K.keeps kept.old [] }
    ensures table { OnOk result (HasTableSo (K.keeps kept.new) (G.relation goes.now) (G.known goes.now) (view_code code.now)) }
    ensures unverified { IfErr result (IsVerifyFault (G.relation goes.now) (G.known goes.now) (view_code code.now)) }
{
    let mut subject = Subject::new(alloc, known, code)?;
    subject.landings = landings(alloc, goes, &subject)?;
    check_subject(alloc, goes, &subject, kept)
}

/// The same by what the machine asks of references.
fn check_laxly<K: Keeping>(
    alloc: Global,
    headers: &Headers,
    known: &Known,
    code: &Code,
    kept: &mut K,
) -> Result<(), VerifyFault>
    requires known { IsKnown known.now }
    requires rising { IsRising (view_instructions code.now.instructions) }
    requires none { K.keeps kept.old [] }
    ensures table { OnOk result (HasTableSo (K.keeps kept.new) (lax.Laxly headers.now) headers.now (view_code code.now)) }
    ensures unverified { IfErr result (IsVerifyFault (lax.Laxly headers.now) headers.now (view_code code.now)) }
{
    let laxly = Laxly { headers };
    let found = check_code(alloc, &laxly, known, code, kept);
    let Laxly { headers: _ } = laxly;
    found
}

/// What verifies the code of methods, one after another: the types that instructions name by themselves are made once.
#[derive(Drop)]
pub struct Verifier {
    known: Known,
}

impl Model for Verifier {
    ghost use Rattle.dj_effects.specs.Doing.{IsKnown};

    ghost Value = { Unit {0} };

    ghost view = { λ _. tt };

    ghost invariant = { λ verifier. IsKnown verifier.known };
}

impl Verifier {
    /// What verifies code.
    pub fn new(alloc: Global) -> Result<Verifier, AllocError> {
        let known = Known::new(alloc)?;
        Ok(Verifier { known })
    }

    /// The code with its table of frames. An error tells the first violation, by the order in which
    /// instructions stand, or that there is no memory.
    pub fn verify(&self, alloc: Global, headers: &Headers, code: Code) -> Result<Typed, VerifyFault>
        requires rising { IsRising (view_instructions code.instructions) }
        ensures same { IfOk result (λ typed. typed.code ≡ code) }
        ensures typed { IfOk result (λ typed. IsTyped (lax.Laxly headers.now) headers.now (view_typed typed)) }
        ensures unverified { IfErr result (IsVerifyFault (lax.Laxly headers.now) headers.now (view_code code)) }
    {
        let count = code.instructions.len();
        let mut frames = Items::from_vec(Vec::with_capacity(alloc, count)?);
        match check_laxly(alloc, headers, &self.known, &code, &mut frames) {
            Ok(()) => Ok(Typed { code, frames }),
            Err(fault) => Err(fault),
        }
    }

    /// Answers that there is a table of frames for the code, of which none is kept. Errors are those of
    /// `verify`.
    pub fn check(&self, alloc: Global, headers: &Headers, code: &Code) -> Result<(), VerifyFault>
        requires rising { IsRising (view_instructions code.now.instructions) }
        ensures frames { OnOk result (HasFrames (lax.Laxly headers.now) headers.now (view_code code.now)) }
        ensures unverified { IfErr result (IsVerifyFault (lax.Laxly headers.now) headers.now (view_code code.now)) }
    {
        check_laxly(alloc, headers, &self.known, code, &mut Passing)
    }
}

/// The same of one method's code alone.
pub fn verify(alloc: Global, headers: &Headers, code: Code) -> Result<Typed, VerifyFault>
    requires rising { IsRising (view_instructions code.instructions) }
    ensures same { IfOk result (λ typed. typed.code ≡ code) }
    ensures typed { IfOk result (λ typed. IsTyped (lax.Laxly headers.now) headers.now (view_typed typed)) }
    ensures unverified { IfErr result (IsVerifyFault (lax.Laxly headers.now) headers.now (view_code code)) }
{
    let verifier = Verifier::new(alloc)?;
    verifier.verify(alloc, headers, code)
}
