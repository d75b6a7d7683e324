//! The body of a method.

ghost use Rattle.std.specs.Prelude.{◌≡◌, ◌≤◌, ◌++◌, length, map, IfOk};
ghost use Rattle.dj_names.specs.Types.{parameters_of as parameters_in, view_descriptor, view_type};
ghost use Rattle.dj_syntax.specs.Trees.{And, Empty, view_body, view_stm, view_stms};
ghost use Rattle.dj_places.specs.Surroundings.{surroundings_of};
ghost use Rattle.dj_declare.specs.Declared as declared;
ghost use Rattle.dj_declare.specs.Initialisers.{under_label, wrapped as wrapped_in};
ghost use Rattle.dj_declare.specs.Heads.{headed};
ghost use Rattle.dj_declare.specs.Lawful.{all_lawful};
ghost use Rattle.dj_declarer.specs.Declarations.{declarations_of};
ghost use Rattle.dj_declaring.specs.Entries.{heads_of};
ghost use Rattle.dj_declaring.specs.Occurring.{variables_of};
ghost use Rattle.dj_declaring.specs.Starting.{found_in};
ghost use Rattle.dj_declaring.specs.Returning as returning;
ghost use Rattle.dj_declaring.specs.Declaring as spec;
ghost use Rattle.dj_declarer.specs.Making as making;

use crate::finding::find_in_list;
use crate::found::nothing_found;
use crate::heads::push_declarations;
use crate::returning::{
    begins_with_call, has_result, is_plain_return, list_has_return, parameters_of, without_last,
};
use dj_declaring::Entry;
use dj_lawful::{Made, made_list};
use dj_names::{Items, JType};
use dj_static::Classes;
use dj_syntax::{Body, Exp, Stm, Var, is_initialiser};
use std::alloc::{AllocError, Global};

/// Statements without the last one, where that is a return without a value.
#[tactic(auto, using(crate::proofs::Making::last_out))]
fn unreturned(list: Items<Stm>) -> Result<Items<Stm>, AllocError>
    ensures unreturned { IfOk result (λ kept. view_stms kept ≡ declared.without_last (view_stms list)) }
{
    let mut list = list;
    match list.pop() {
        None => Ok(list),
        Some(last) => {
            if is_plain_return(&last) {
                return Ok(list);
            }
            list.push(last)?;
            Ok(list)
        }
    }
}

/// One statement.
fn single(alloc: Global, statement: Stm) -> Result<Items<Stm>, AllocError>
    ensures single { IfOk result (λ one. view_stms one ≡ And (view_stm statement) Empty) }
{
    let mut one = Items::new(alloc);
    one.push(statement)?;
    Ok(one)
}

/// Statements in an `if (true) { }` where they can't complete normally.
fn wrapped(alloc: Global, falls: bool, list: Items<Stm>) -> Result<Items<Stm>, AllocError>
    ensures wrapped { IfOk result (λ made. view_stms made ≡ making.wrapped_by falls (view_stms list)) }
{
    if falls {
        return Ok(list);
    }
    let mut only = Items::new(alloc);
    only.push(Stm::If(Exp::Bool(true), list, Items::new(alloc)))?;
    Ok(only)
}

/// Lawful statements under a label, to which they break in place of returning.
#[tactic(auto, using(crate::proofs::Making::labelled_made))]
fn labelled(
    alloc: Global,
    classes: &Classes<'_>,
    own: u32,
    list: &[Stm],
) -> Result<Items<Stm>, AllocError>
    ensures labelled { IfOk result (λ made. view_stms made ≡ wrapped_in (surroundings_of classes.now) (all_lawful (surroundings_of classes.now) (under_label own (view_stms list.now)))) }
{
    let inner = made_list(alloc, classes, Some(own), list)?;
    let made = Made::under(alloc, own, Made::blocked(inner))?;
    let only = single(alloc, made.statement)?;
    wrapped(alloc, made.falls, only)
}

/// Lawful statements, wrapped where they can't complete normally.
#[tactic(auto, using(crate::proofs::Making::completing_made))]
fn completing(alloc: Global, classes: &Classes<'_>, list: &[Stm]) -> Result<Items<Stm>, AllocError>
    ensures completing { IfOk result (λ made. view_stms made ≡ wrapped_in (surroundings_of classes.now) (all_lawful (surroundings_of classes.now) (view_stms list.now))) }
{
    let made = made_list(alloc, classes, None, list)?;
    wrapped(alloc, made.falls, made.list)
}

/// The statements of a static initialiser.
fn initialiser_list(
    alloc: Global,
    classes: &Classes<'_>,
    own: u32,
    tree: &[Stm],
) -> Result<Items<Stm>, AllocError>
    ensures initialiser { IfOk result (λ made. view_stms made ≡ wrapped_in (surroundings_of classes.now) (all_lawful (surroundings_of classes.now) (returning.not_returning own (view_stms tree.now)))) }
{
    let list = without_last(tree);
    if list_has_return(list) {
        labelled(alloc, classes, own, list)
    } else {
        completing(alloc, classes, list)
    }
}

/// The statements of another method, given whether it has a result.
#[tactic(auto, using(crate::proofs::Making::lawful_made))]
fn method_list(
    alloc: Global,
    classes: &Classes<'_>,
    gives: bool,
    tree: &[Stm],
) -> Result<Items<Stm>, AllocError>
    ensures method { IfOk result (λ made. view_stms made ≡ making.ended_by gives (all_lawful (surroundings_of classes.now) (view_stms tree.now))) }
{
    let made = made_list(alloc, classes, None, tree)?;
    if gives {
        Ok(made.list)
    } else {
        unreturned(made.list)
    }
}

/// The statements behind the head of a body that doesn't begin with a call.
#[tactic(auto, using(crate::proofs::Making::ended_made))]
fn body_list(
    alloc: Global,
    classes: &Classes<'_>,
    head: &Body,
    own: u32,
    tree: &[Stm],
) -> Result<Items<Stm>, AllocError>
    ensures list { IfOk result (λ made. view_stms made ≡ spec.list_with (surroundings_of classes.now) (view_body head.now) own (view_stms tree.now)) }
{
    if is_initialiser(&head.name) {
        initialiser_list(alloc, classes, own, tree)
    } else {
        method_list(alloc, classes, has_result(&head.descriptor), tree)
    }
}

/// Statements behind declarations of variables, which stand behind others.
fn with_heads(
    alloc: Global,
    kinds: &[JType],
    parameters: &[JType],
    entry: &Entry,
    variables: &[Var],
    front: Items<Stm>,
    list: Items<Stm>,
) -> Result<Items<Stm>, AllocError>
    requires few { length parameters.now ≤ 4294967295 }
    ensures headed { IfOk result (λ made. map view_stm made ≡ (map view_stm front ++ declarations_of (heads_of (map view_type kinds.now) (map view_type parameters.now) entry.now variables.now)) ++ map view_stm list) }
{
    let mut front = front;
    push_declarations(alloc, kinds, parameters, entry, variables, &mut front)?;
    front.append(list)?;
    Ok(front)
}

/// The first statement of a tree.
fn first_of(alloc: Global, tree: &[Stm]) -> Result<Items<Stm>, AllocError>
    ensures first { IfOk result (λ one. map view_stm one ≡ making.first_of (view_stms tree.now)) }
{
    let mut one = Items::new(alloc);
    match tree {
        [] => Ok(one),
        [first, ..] => {
            let copy = first.copy(alloc)?;
            one.push(copy)?;
            Ok(one)
        }
    }
}

/// What stands behind it.
fn behind_first(tree: &[Stm]) -> &[Stm]
    ensures behind { view_stms result.now ≡ returning.behind_call (view_stms tree.now) }
{
    match tree {
        [] => tree,
        [_, rest @ ..] => rest,
    }
}

/// The statements of a constructor, whose tree begins with a call.
#[tactic(auto, using(crate::proofs::Making::with_heads))]
fn constructor_statements(
    alloc: Global,
    classes: &Classes<'_>,
    kinds: &[JType],
    parameters: &[JType],
    entry: &Entry,
    variables: &[Var],
    tree: &[Stm],
) -> Result<Items<Stm>, AllocError>
    requires few { length parameters.now ≤ 4294967295 }
    ensures statements { IfOk result (λ made. view_stms made ≡ making.constructor_list (surroundings_of classes.now) (heads_of (map view_type kinds.now) (map view_type parameters.now) entry.now variables.now) (view_stms tree.now)) }
{
    let front = first_of(alloc, tree)?;
    let list = method_list(alloc, classes, false, behind_first(tree))?;
    with_heads(alloc, kinds, parameters, entry, variables, front, list)
}

/// The statements of another method.
#[tactic(auto, using(crate::proofs::Making::with_heads))]
fn other_statements(
    alloc: Global,
    classes: &Classes<'_>,
    head: &Body,
    kinds: &[JType],
    parameters: &[JType],
    entry: &Entry,
    variables: &[Var],
    own: u32,
    tree: &[Stm],
) -> Result<Items<Stm>, AllocError>
    requires few { length parameters.now ≤ 4294967295 }
    ensures statements { IfOk result (λ made. view_stms made ≡ headed (heads_of (map view_type kinds.now) (map view_type parameters.now) entry.now variables.now) (spec.list_with (surroundings_of classes.now) (view_body head.now) own (view_stms tree.now))) }
{
    let list = body_list(alloc, classes, head, own, tree)?;
    let front = Items::new(alloc);
    let made = with_heads(alloc, kinds, parameters, entry, variables, front, list)?;
    Ok(made)
}

/// The statements of a body, given the variables that its tree names.
#[tactic(auto, using(crate::proofs::Making::constructor_made, crate::proofs::Making::other_made))]
fn statements(
    alloc: Global,
    classes: &Classes<'_>,
    head: &Body,
    kinds: &[JType],
    entry: &Entry,
    variables: &[Var],
    own: u32,
    tree: &[Stm],
) -> Result<Items<Stm>, AllocError>
    requires few { length (parameters_in (view_descriptor head.now.descriptor)) ≤ 4294967295 }
    ensures statements { IfOk result (λ made. view_stms made ≡ spec.statements_with (surroundings_of classes.now) (view_body head.now) (heads_of (map view_type kinds.now) (parameters_in (view_descriptor head.now.descriptor)) entry.now variables.now) own (view_stms tree.now) (returning.opening_call (view_stms tree.now))) }
{
    let parameters = parameters_of(&head.descriptor);
    if begins_with_call(tree) {
        constructor_statements(alloc, classes, kinds, parameters, entry, variables, tree)
    } else {
        other_statements(
            alloc, classes, head, kinds, parameters, entry, variables, own, tree,
        )
    }
}

/// The variables that a tree names, those that have kinds first.
fn variables_in(alloc: Global, kinds: &[JType], tree: &[Stm]) -> Result<Items<Var>, AllocError>
    ensures variables { IfOk result (λ found. found ≡ variables_of (found_in (map view_type kinds.now) (view_stms tree.now))) }
{
    let mut found = nothing_found(alloc, kinds)?;
    find_in_list(tree, &mut found)?;
    let mut variables = found.locals;
    variables.append(found.states)?;
    Ok(variables)
}

/// The body of a method from the tree of its graph: the method's head, whose statements aren't looked at, the kinds of
/// the variables, those that hold `this` and the parameters as the method begins, and a label that the tree lacks.
pub fn declare(
    alloc: Global,
    classes: &Classes<'_>,
    head: Body,
    kinds: &[JType],
    entry: &Entry,
    own: u32,
    tree: &[Stm],
) -> Result<Body, AllocError>
    requires few { length (parameters_in (view_descriptor head.descriptor)) ≤ 4294967295 }
    ensures declared { IfOk result (λ body. view_body body ≡ spec.declared_body (surroundings_of classes.now) (view_body head) (map view_type kinds.now) entry.now own (view_stms tree.now)) }
{
    let variables = variables_in(alloc, kinds, tree)?;
    let statements = statements(
        alloc,
        classes,
        &head,
        kinds,
        entry,
        variables.as_slice(),
        own,
        tree,
    )?;
    let Body {
        class,
        flags,
        name,
        descriptor,
        thrown,
        ..
    } = head;
    Ok(Body {
        class,
        flags,
        name,
        descriptor,
        thrown,
        statements,
    })
}
