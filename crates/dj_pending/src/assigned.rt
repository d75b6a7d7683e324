//! Variables that a statement assigns.

ghost use Rattle.std.specs.Prelude.{◌≡◌, ◌==◌};
ghost use Rattle.dj_meaning.specs.StaticTypes.{is_same_variable};
ghost use Rattle.dj_syntax.specs.NameText.{letter};
ghost use Rattle.dj_rebuilding.specs.Pending.{stays};
ghost use Rattle.dj_pending.specs.Assigned.{is_among};
ghost use Rattle.dj_pending.specs.Entries.{view_atom};

use crate::entry::Atom;
use dj_syntax::{Var, VarKind};

/// Whether variables are of one kind.
fn is_same_kind(first: VarKind, second: VarKind) -> bool
    ensures same { result ≡ (letter first == letter second) }
{
    match (first, second) {
        (VarKind::Param, VarKind::Param)
        | (VarKind::Local, VarKind::Local)
        | (VarKind::Caught, VarKind::Caught)
        | (VarKind::State, VarKind::State) => true,
        (VarKind::Param, VarKind::Local | VarKind::Caught | VarKind::State)
        | (VarKind::Local, VarKind::Param | VarKind::Caught | VarKind::State)
        | (VarKind::Caught, VarKind::Param | VarKind::Local | VarKind::State)
        | (VarKind::State, VarKind::Param | VarKind::Local | VarKind::Caught) => false,
    }
}

/// Whether variables are spelled alike.
fn is_same_variable(first: Var, second: Var) -> bool
    ensures same { result ≡ is_same_variable first second }
{
    is_same_kind(first.kind, second.kind) && first.number == second.number
}

/// Whether a variable is one of these.
fn is_among(variables: &[Var], variable: Var) -> bool
    ensures among { result ≡ is_among variables.now variable }
{
    for one in variables {
        if is_same_variable(variable, *one) {
            return true;
        }
    }
    false
}

/// Whether an atom stays pending where these variables are assigned.
pub fn stays(assigned: &[Var], atom: &Atom) -> bool
    ensures stays { result ≡ stays (is_among assigned.now) (view_atom atom.now) }
{
    match atom {
        Atom::Number(_) => true,
        Atom::Wide(_) => true,
        Atom::Units(_) => true,
        Atom::Nothing => true,
        Atom::Own => true,
        Atom::Named(variable) => !is_among(assigned, *variable),
    }
}
