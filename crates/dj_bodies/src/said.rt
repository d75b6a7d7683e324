//! The names of classes that the text of a class can say, among the classes there are.

ghost use Rattle.std.specs.Prelude.{◌≡◌, ◌++◌, ◌∷◌, [], ℕ, List, IfOk, OnOk, map, take};
ghost use Rattle.dj_names.specs.declared.header.Header.{Header};
ghost use Rattle.dj_names.specs.declared.members.ClassMembers.{ClassMembers};
ghost use Rattle.dj_names.specs.Headers.{Name, names};
ghost use Rattle.dj_sayable.specs.Scopes.{IsScope};
ghost use Rattle.dj_typed.specs.Bodies.{IsRight};
ghost use Rattle.dj_body_types.specs.Views.{writing_of};
ghost use Rattle.dj_bodies.specs.Said.{HasSaid};

use dj_headers::Headers;
use dj_names::{ClassName, Members};
use dj_sayable::Scope;
use std::alloc::{AllocError, Global};
use std::collections::BTreeSet;

/// Adds a name where the text can say it.
fn add_said(
    alloc: Global,
    headers: &Headers,
    scope: &Scope,
    name: &ClassName,
    said: &mut BTreeSet<ClassName>,
) -> Result<(), AllocError>
    ensures added { OnOk result ((members : List ClassMembers) (class : Name) (before : List Name) → IsScope headers.now members class scope.now → HasSaid headers.now members class before said.old → HasSaid headers.now members class (before ++ name.now ∷ []) said.new) }
{
    if scope.can_be_said(alloc, headers, name)? {
        said.insert(name.copy(alloc)?)?;
    }
    Ok(())
}

/// The names of the classes there are that the text of a class can say.
pub fn said_in(
    alloc: Global,
    headers: &Headers,
    members: &Members,
    class: &ClassName,
) -> Result<BTreeSet<ClassName>, AllocError>
    ensures right { IfOk result (λ said. IsRight headers.now members.now.classes class.now (writing_of said)) }
{
    let scope = Scope::new(alloc, headers, members, class)?;
    let mut said = BTreeSet::new(alloc);
    for header in headers.as_slice() {
        add_said(alloc, headers, &scope, &header.name, &mut said)?;
    }
    Ok(said)
}
