//! Whether Java accepts an expression.

ghost use Rattle.std.specs.Prelude.{IfErr, OnOk};
ghost use Rattle.dj_syntax.specs.Trees.{view_exp};
ghost use Rattle.dj_static.specs.Scopes.{scope_of};
ghost use Rattle.dj_places.specs.Rules.{Holds};
ghost use Rattle.dj_faults.specs.FirstFault.{IsFaultOf};
ghost use Rattle.dj_typing.specs.Expressions.{exp_types};
ghost use Rattle.dj_checked.specs.Sites.{site_of};

use crate::expressions::pass_exp;
use crate::site::Site;
use crate::walk::Walk;
use dj_faults::BodyFault;
use dj_static::Scope;
use dj_syntax::Exp;
use std::alloc::Global;

/// Checks that an expression keeps the rules of JLS 15 where it stands; its own place is 0.
pub fn check_expression(
    alloc: Global,
    site: &Site<'_>,
    scope: &Scope,
    exp: &Exp,
) -> Result<(), BodyFault>
    ensures kept { OnOk result (Holds (exp_types (site_of site.now) (scope_of scope.now) 0 (view_exp exp.now))) }
    ensures broken { IfErr result (IsFaultOf (exp_types (site_of site.now) (scope_of scope.now) 0 (view_exp exp.now))) }
{
    let mut walk = Walk::new();
    pass_exp(alloc, site, scope, exp, &mut walk)?;
    match walk.fault {
        None => Ok(()),
        Some(fault) => Err(BodyFault::TypeFault {
            place: fault.place,
            kind: fault.kind,
        }),
    }
}
