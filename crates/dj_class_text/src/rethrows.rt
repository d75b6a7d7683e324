//! Which statements throw again what they caught.

ghost use Rattle.std.specs.Prelude.{◌≡◌, map};
ghost use Rattle.dj_syntax.specs.Trees.{view_catches, view_groups, view_stm, view_stms, view_method};
ghost use Rattle.dj_class_text.specs.Rethrows.{has_rethrow, have_rethrow, groups_have_rethrow, catches_have_rethrow};
ghost use Rattle.dj_class_text.specs.Helpers.{methods_have_rethrow};

use dj_syntax::{Catch, Group, MethodText, Stm};

/// Whether a statement, or one in it, is a rethrow.
#[cycle(rethrow)]
fn has_rethrow(statement: &Stm) -> bool
    ensures has { result ≡ has_rethrow (view_stm statement.now) }
{
    match statement {
        Stm::Block(list) => have_rethrow(list.as_slice()),
        Stm::Labelled(_, statement) => has_rethrow(statement.get()),
        Stm::Declare(_, _, _) => false,
        Stm::Set(_, _) => false,
        Stm::SetField(_, _, _) => false,
        Stm::SetStatic(_, _, _) => false,
        Stm::SetElement(_, _, _) => false,
        Stm::Run(_) => false,
        Stm::If(_, first, second) => {
            have_rethrow(first.as_slice()) || have_rethrow(second.as_slice())
        }
        Stm::While(_, body) => have_rethrow(body.as_slice()),
        Stm::Switch(_, groups) => groups_have_rethrow(groups.as_slice()),
        Stm::Break(_) => false,
        Stm::Continue(_) => false,
        Stm::Return(_) => false,
        Stm::Throw(_) => false,
        Stm::Rethrow(_) => true,
        Stm::Try(body, catches) => {
            have_rethrow(body.as_slice()) || catches_have_rethrow(catches.as_slice())
        }
        Stm::Synchronized(_, body) => have_rethrow(body.as_slice()),
        Stm::Construct(_, _) => false,
        Stm::Do(body, _) => have_rethrow(body.as_slice()),
        Stm::For(_, _, _, body) => have_rethrow(body.as_slice()),
        Stm::Finally(body, last) => {
            have_rethrow(body.as_slice()) || have_rethrow(last.as_slice())
        }
    }
}

/// Whether one of these statements has a rethrow.
#[cycle(rethrow)]
fn have_rethrow(list: &[Stm]) -> bool
    ensures have { result ≡ have_rethrow (view_stms list.now) }
{
    for statement in list {
        if has_rethrow(statement) {
            return true;
        }
    }
    false
}

/// Whether one of these groups has a rethrow.
#[cycle(rethrow)]
fn groups_have_rethrow(list: &[Group]) -> bool
    ensures have { result ≡ groups_have_rethrow (view_groups list.now) }
{
    for group in list {
        if have_rethrow(group.body.as_slice()) {
            return true;
        }
    }
    false
}

/// Whether one of these catch clauses has a rethrow.
#[cycle(rethrow)]
fn catches_have_rethrow(list: &[Catch]) -> bool
    ensures have { result ≡ catches_have_rethrow (view_catches list.now) }
{
    for catch in list {
        if have_rethrow(catch.body.as_slice()) {
            return true;
        }
    }
    false
}

/// Whether one of the methods has a rethrow in its body.
pub fn methods_have_rethrow(methods: &[MethodText]) -> bool
    ensures have { result ≡ methods_have_rethrow (map view_method methods.now) }
{
    for method in methods {
        if let Some(body) = &method.body {
            if have_rethrow(body.statements.as_slice()) {
                return true;
            }
        }
    }
    false
}
