//! What each check finds, as a fault.

ghost use Rattle.std.specs.Prelude.{IfErr, IfOk, OnOk};
ghost use Rattle.dj_places.specs.Rules.{Rules, Holds};
ghost use Rattle.dj_places.specs.declared.kind.TypeKind.TheVariants as kinds;
ghost use Rattle.dj_faults.specs.FirstFault.{IsFaultOf, Tells, AreOf};
ghost use Rattle.dj_reach.specs.Faults as reach;
ghost use Rattle.dj_assigned.specs.Faults as assigned;

use dj_assigned::FlowFault;
use dj_faults::{BodyFault, Fault};
use dj_places::TypeKind;
use dj_reach::ReachFault;
use std::alloc::AllocError;

/// What a check of rules finds.
pub fn found(checked: Result<(), BodyFault>) -> Result<Option<Fault>, AllocError>
    ensures tells { (rules : Rules) → OnOk checked (Holds rules) → IfErr checked (IsFaultOf rules) → IfOk result (Tells rules) }
{
    match checked {
        Ok(()) => Ok(None),
        Err(BodyFault::TypeFault { place, kind }) => Ok(Some(Fault { place, kind })),
        Err(BodyFault::Memory(error)) => Err(error),
    }
}

/// What the check of reachability finds.
pub fn unreached(checked: Result<(), ReachFault>) -> Result<Option<Fault>, AllocError>
    ensures tells { (rules : Rules) → AreOf kinds.Reach rules → OnOk checked (Holds rules) → IfErr checked (reach.IsFaultOf rules) → IfOk result (Tells rules) }
{
    match checked {
        Ok(()) => Ok(None),
        Err(ReachFault::Unreached(place)) => Ok(Some(Fault {
            place,
            kind: TypeKind::Reach,
        })),
        Err(ReachFault::Memory(error)) => Err(error),
    }
}

/// What the check of definite assignment finds.
pub fn unassigned(checked: Result<(), FlowFault>) -> Result<Option<Fault>, AllocError>
    ensures tells { (rules : Rules) → AreOf kinds.Assigned rules → OnOk checked (Holds rules) → IfErr checked (assigned.IsFaultOf rules) → IfOk result (Tells rules) }
{
    match checked {
        Ok(()) => Ok(None),
        Err(FlowFault::Unassigned(place)) => Ok(Some(Fault {
            place,
            kind: TypeKind::Assigned,
        })),
        Err(FlowFault::Memory(error)) => Err(error),
    }
}
