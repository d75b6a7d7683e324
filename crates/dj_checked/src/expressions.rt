//! The walk over expressions, which answers their types, so that none is found twice. Each form with one part or a list of them has a function of
//! its own.

ghost use Rattle.std.specs.Prelude.{◌≡◌, ◌&&◌, IfOk, map};
ghost use Rattle.std.specs.Option.{option_map};
ghost use Rattle.dj_names.specs.Types.{view_type, view_static};
ghost use Rattle.dj_syntax.specs.Trees as trees;
ghost use Rattle.dj_syntax.specs.Trees.{view_exp, view_exps};
ghost use Rattle.dj_static.specs.Scopes.{scope_of};
ghost use Rattle.dj_meaning.specs.StaticTypes.{type_of, types_of};
ghost use Rattle.dj_typing.specs.Expressions.{is_index, are_indexes};
ghost use Rattle.dj_typing.specs.Sites.{context_of};
ghost use Rattle.dj_checked.specs.Sites.{site_of};
ghost use Rattle.dj_checked.specs.Walks as spec;

use crate::calls::{call, new, static_call, super_call};
use crate::leaves::{class_literal, static_field, text, this, variable};
use crate::operands::{Test, if_of};
use crate::parts::{
    assign, binary, cast, choice, element, field, instance_of, negative, new_array, opposite,
};
use crate::site::Site;
use crate::walk::Walk;
use dj_names::{ClassName, Items, JType, StaticType, Units};
use dj_static::Scope;
use dj_syntax::{Exp, Var};
use std::alloc::{AllocError, Global};

/// Walks past what a name selects of an object.
#[cycle(pass_exp)]
fn pass_field(
    alloc: Global,
    site: &Site<'_>,
    scope: &Scope,
    operand: &Exp,
    name: &Units,
    walk: &mut Walk,
) -> Result<Option<StaticType>, AllocError>
    ensures walked { IfOk result (λ _. walk.new ≡ spec.pass_exp (site_of site.now) (scope_of scope.now) (trees.Field (view_exp operand.now) name.now) walk.old) }
    ensures typed { IfOk result (λ found. option_map view_static found ≡ type_of (context_of (site_of site.now)) (scope_of scope.now) (trees.Field (view_exp operand.now) name.now)) }
{
    let place = walk.step();
    let operand = pass_exp(alloc, site, scope, operand, walk)?;
    let found = field(alloc, site, place, &operand, name, walk)?;
    Ok(found)
}

/// Walks past a cast.
#[cycle(pass_exp)]
fn pass_cast(
    alloc: Global,
    site: &Site<'_>,
    scope: &Scope,
    operand: &Exp,
    kind: &JType,
    walk: &mut Walk,
) -> Result<Option<StaticType>, AllocError>
    ensures walked { IfOk result (λ _. walk.new ≡ spec.pass_exp (site_of site.now) (scope_of scope.now) (trees.Cast (view_type kind.now) (view_exp operand.now)) walk.old) }
    ensures typed { IfOk result (λ found. option_map view_static found ≡ type_of (context_of (site_of site.now)) (scope_of scope.now) (trees.Cast (view_type kind.now) (view_exp operand.now))) }
{
    let place = walk.step();
    let operand = pass_exp(alloc, site, scope, operand, walk)?;
    let found = cast(alloc, site, place, kind, &operand, walk)?;
    Ok(found)
}

/// Walks past a test of a type.
#[cycle(pass_exp)]
fn pass_instance_of(
    alloc: Global,
    site: &Site<'_>,
    scope: &Scope,
    operand: &Exp,
    kind: &JType,
    walk: &mut Walk,
) -> Result<Option<StaticType>, AllocError>
    ensures walked { IfOk result (λ _. walk.new ≡ spec.pass_exp (site_of site.now) (scope_of scope.now) (trees.InstanceOf (view_exp operand.now) (view_type kind.now)) walk.old) }
    ensures typed { IfOk result (λ found. option_map view_static found ≡ type_of (context_of (site_of site.now)) (scope_of scope.now) (trees.InstanceOf (view_exp operand.now) (view_type kind.now))) }
{
    let place = walk.step();
    let operand = pass_exp(alloc, site, scope, operand, walk)?;
    let found = instance_of(alloc, site, place, &operand, kind, walk)?;
    Ok(found)
}

/// Walks past a number with its sign changed.
#[cycle(pass_exp)]
fn pass_negative(
    alloc: Global,
    site: &Site<'_>,
    scope: &Scope,
    operand: &Exp,
    walk: &mut Walk,
) -> Result<Option<StaticType>, AllocError>
    ensures walked { IfOk result (λ _. walk.new ≡ spec.pass_exp (site_of site.now) (scope_of scope.now) (trees.Negative (view_exp operand.now)) walk.old) }
    ensures typed { IfOk result (λ found. option_map view_static found ≡ type_of (context_of (site_of site.now)) (scope_of scope.now) (trees.Negative (view_exp operand.now))) }
{
    let place = walk.step();
    let operand = pass_exp(alloc, site, scope, operand, walk)?;
    Ok(negative(place, &operand, walk))
}

/// Walks past a condition that is turned round.
#[cycle(pass_exp)]
fn pass_not(
    alloc: Global,
    site: &Site<'_>,
    scope: &Scope,
    operand: &Exp,
    walk: &mut Walk,
) -> Result<Option<StaticType>, AllocError>
    ensures walked { IfOk result (λ _. walk.new ≡ spec.pass_exp (site_of site.now) (scope_of scope.now) (trees.Not (view_exp operand.now)) walk.old) }
    ensures typed { IfOk result (λ found. option_map view_static found ≡ type_of (context_of (site_of site.now)) (scope_of scope.now) (trees.Not (view_exp operand.now))) }
{
    let place = walk.step();
    let operand = pass_exp(alloc, site, scope, operand, walk)?;
    Ok(opposite(place, &operand, walk))
}

/// Walks past an assignment of a variable.
#[cycle(pass_exp)]
fn pass_assign(
    alloc: Global,
    site: &Site<'_>,
    scope: &Scope,
    variable: Var,
    operand: &Exp,
    walk: &mut Walk,
) -> Result<Option<StaticType>, AllocError>
    ensures walked { IfOk result (λ _. walk.new ≡ spec.pass_exp (site_of site.now) (scope_of scope.now) (trees.Assign variable (view_exp operand.now)) walk.old) }
    ensures typed { IfOk result (λ found. option_map view_static found ≡ type_of (context_of (site_of site.now)) (scope_of scope.now) (trees.Assign variable (view_exp operand.now))) }
{
    let place = walk.step();
    let operand = pass_exp(alloc, site, scope, operand, walk)?;
    let declared = scope.kind(variable);
    let found = assign(alloc, site, place, &operand, declared, walk)?;
    Ok(found)
}

/// Walks past a call of a static method.
#[cycle(pass_exp)]
fn pass_static_call(
    alloc: Global,
    site: &Site<'_>,
    scope: &Scope,
    class: &ClassName,
    name: &Units,
    arguments: &[Exp],
    walk: &mut Walk,
) -> Result<Option<StaticType>, AllocError>
    ensures walked { IfOk result (λ _. walk.new ≡ spec.pass_exp (site_of site.now) (scope_of scope.now) (trees.StaticCall class.now name.now (view_exps arguments.now)) walk.old) }
    ensures typed { IfOk result (λ found. option_map view_static found ≡ type_of (context_of (site_of site.now)) (scope_of scope.now) (trees.StaticCall class.now name.now (view_exps arguments.now))) }
{
    let place = walk.step();
    let given = pass_exps(alloc, site, scope, arguments, walk)?;
    let found = static_call(alloc, site, place, class, name, &given, walk)?;
    Ok(found)
}

/// Walks past a call behind `super`.
#[cycle(pass_exp)]
fn pass_super_call(
    alloc: Global,
    site: &Site<'_>,
    scope: &Scope,
    above: &Option<ClassName>,
    name: &Units,
    arguments: &[Exp],
    walk: &mut Walk,
) -> Result<Option<StaticType>, AllocError>
    ensures walked { IfOk result (λ _. walk.new ≡ spec.pass_exp (site_of site.now) (scope_of scope.now) (trees.SuperCall above.now name.now (view_exps arguments.now)) walk.old) }
    ensures typed { IfOk result (λ found. option_map view_static found ≡ type_of (context_of (site_of site.now)) (scope_of scope.now) (trees.SuperCall above.now name.now (view_exps arguments.now))) }
{
    let place = walk.step();
    let given = pass_exps(alloc, site, scope, arguments, walk)?;
    let found = super_call(alloc, site, place, above, name, &given, walk)?;
    Ok(found)
}

/// Walks past a new object.
#[cycle(pass_exp)]
fn pass_new(
    alloc: Global,
    site: &Site<'_>,
    scope: &Scope,
    class: &ClassName,
    arguments: &[Exp],
    walk: &mut Walk,
) -> Result<Option<StaticType>, AllocError>
    ensures walked { IfOk result (λ _. walk.new ≡ spec.pass_exp (site_of site.now) (scope_of scope.now) (trees.New class.now (view_exps arguments.now)) walk.old) }
    ensures typed { IfOk result (λ found. option_map view_static found ≡ type_of (context_of (site_of site.now)) (scope_of scope.now) (trees.New class.now (view_exps arguments.now))) }
{
    let place = walk.step();
    let given = pass_exps(alloc, site, scope, arguments, walk)?;
    let found = new(alloc, site, place, class, &given, walk)?;
    Ok(found)
}

/// Walks past a new array.
#[cycle(pass_exp)]
fn pass_new_array(
    alloc: Global,
    site: &Site<'_>,
    scope: &Scope,
    sizes: &[Exp],
    kind: &JType,
    more: u32,
    walk: &mut Walk,
) -> Result<Option<StaticType>, AllocError>
    ensures walked { IfOk result (λ _. walk.new ≡ spec.pass_exp (site_of site.now) (scope_of scope.now) (trees.NewArray (view_type kind.now) (view_exps sizes.now) more) walk.old) }
    ensures typed { IfOk result (λ found. option_map view_static found ≡ type_of (context_of (site_of site.now)) (scope_of scope.now) (trees.NewArray (view_type kind.now) (view_exps sizes.now) more)) }
{
    let place = walk.step();
    let indexed = pass_sizes(alloc, site, scope, sizes, walk)?;
    let count = sizes.len();
    let found = new_array(alloc, site, place, kind, count, indexed, more, walk)?;
    Ok(found)
}

/// Walks past an expression, and tells its type, none where it has none.
#[cycle(pass_exp)]
pub fn pass_exp(
    alloc: Global,
    site: &Site<'_>,
    scope: &Scope,
    exp: &Exp,
    walk: &mut Walk,
) -> Result<Option<StaticType>, AllocError>
    ensures walked { IfOk result (λ _. walk.new ≡ spec.pass_exp (site_of site.now) (scope_of scope.now) (view_exp exp.now) walk.old) }
    ensures typed { IfOk result (λ found. option_map view_static found ≡ type_of (context_of (site_of site.now)) (scope_of scope.now) (view_exp exp.now)) }
{
    match exp {
        Exp::Int(_) => {
            walk.step();
            Ok(Some(StaticType::Of(JType::Int)))
        }
        Exp::Long(_) => {
            walk.step();
            Ok(Some(StaticType::Of(JType::Long)))
        }
        Exp::Text(_) => text(alloc, site, walk),
        Exp::Bool(_) => {
            walk.step();
            Ok(Some(StaticType::Of(JType::Boolean)))
        }
        Exp::Null => {
            walk.step();
            Ok(Some(StaticType::Null))
        }
        Exp::This => this(alloc, site, walk),
        Exp::Var(one) => variable(alloc, site, scope, *one, walk),
        Exp::ClassOf(kind) => class_literal(alloc, site, kind, walk),
        Exp::Field(object, name) => pass_field(alloc, site, scope, object.get(), name, walk),
        Exp::Static(class, name) => static_field(alloc, site, class, name, walk),
        Exp::Element(array, index) => {
            let place = walk.step();
            let array = pass_exp(alloc, site, scope, array.get(), walk)?;
            let index = pass_exp(alloc, site, scope, index.get(), walk)?;
            let found = element(alloc, site, place, &array, &index, walk)?;
            Ok(found)
        }
        Exp::Call(object, name, arguments) => {
            let place = walk.step();
            let object = pass_exp(alloc, site, scope, object.get(), walk)?;
            let given = pass_exps(alloc, site, scope, arguments.get().as_slice(), walk)?;
            let found = call(alloc, site, place, &object, name, &given, walk)?;
            Ok(found)
        }
        Exp::StaticCall(class, name, arguments) => {
            let arguments = arguments.get().as_slice();
            pass_static_call(alloc, site, scope, class, name, arguments, walk)
        }
        Exp::SuperCall(above, name, arguments) => {
            let arguments = arguments.get().as_slice();
            pass_super_call(alloc, site, scope, above, name, arguments, walk)
        }
        Exp::New(class, arguments) => {
            pass_new(alloc, site, scope, class, arguments.get().as_slice(), walk)
        }
        Exp::NewArray(kind, sizes, more) => {
            let sizes = sizes.get().as_slice();
            pass_new_array(alloc, site, scope, sizes, kind, *more, walk)
        }
        Exp::Cast(kind, operand) => pass_cast(alloc, site, scope, operand.get(), kind, walk),
        Exp::InstanceOf(operand, kind) => {
            pass_instance_of(alloc, site, scope, operand.get(), kind, walk)
        }
        Exp::Negative(operand) => pass_negative(alloc, site, scope, operand.get(), walk),
        Exp::Not(operand) => pass_not(alloc, site, scope, operand.get(), walk),
        Exp::Binary(operator, left, right) => {
            let place = walk.step();
            let left = pass_exp(alloc, site, scope, left.get(), walk)?;
            let right = pass_exp(alloc, site, scope, right.get(), walk)?;
            Ok(binary(site, place, *operator, &left, &right, walk))
        }
        Exp::Choice(test, first, second) => {
            let place = walk.step();
            let test = pass_exp(alloc, site, scope, test.get(), walk)?;
            let first = pass_exp(alloc, site, scope, first.get(), walk)?;
            let second = pass_exp(alloc, site, scope, second.get(), walk)?;
            Ok(choice(place, &test, first, second, walk))
        }
        Exp::Assign(variable, new) => {
            pass_assign(alloc, site, scope, *variable, new.get(), walk)
        }
    }
}

/// One type more behind others, where each has one.
fn and_type(
    types: Option<Items<StaticType>>,
    kind: Option<StaticType>,
) -> Result<Option<Items<StaticType>>, AllocError>
    ensures typed { IfOk result (λ more. option_map (map view_static) more ≡ spec.and_last (option_map (map view_static) types) (option_map view_static kind)) }
{
    match types {
        None => Ok(None),
        Some(types) => match kind {
            None => Ok(None),
            Some(kind) => {
                let mut types = types;
                types.push(kind)?;
                Ok(Some(types))
            }
        },
    }
}

/// Walks past expressions, and tells their types, none where one has none.
#[cycle(pass_exp)]
pub fn pass_exps(
    alloc: Global,
    site: &Site<'_>,
    scope: &Scope,
    list: &[Exp],
    walk: &mut Walk,
) -> Result<Option<Items<StaticType>>, AllocError>
    ensures walked { IfOk result (λ _. walk.new ≡ spec.pass_exps (site_of site.now) (scope_of scope.now) (view_exps list.now) walk.old) }
    ensures typed { IfOk result (λ types. option_map (map view_static) types ≡ types_of (context_of (site_of site.now)) (scope_of scope.now) (view_exps list.now)) }
{
    let mut types = Some(Items::new(alloc));
    for exp in list {
        let kind = pass_exp(alloc, site, scope, exp, walk)?;
        types = and_type(types, kind)?;
    }
    Ok(types)
}

/// Whether each size so far may be one, and the next may, too.
fn and_index(indexed: bool, kind: &Option<StaticType>) -> bool
    ensures indexed { result ≡ (indexed && is_index (option_map view_static kind.now)) }
{
    indexed && if_of(Test::Int, kind)
}

/// Walks past the sizes of a new array, and tells whether each may be one.
#[cycle(pass_exp)]
fn pass_sizes(
    alloc: Global,
    site: &Site<'_>,
    scope: &Scope,
    list: &[Exp],
    walk: &mut Walk,
) -> Result<bool, AllocError>
    ensures walked { IfOk result (λ _. walk.new ≡ spec.pass_exps (site_of site.now) (scope_of scope.now) (view_exps list.now) walk.old) }
    ensures indexed { IfOk result (λ indexed. indexed ≡ are_indexes (site_of site.now) (scope_of scope.now) (view_exps list.now)) }
{
    let mut indexed = true;
    for exp in list {
        let kind = pass_exp(alloc, site, scope, exp, walk)?;
        indexed = and_index(indexed, &kind);
    }
    Ok(indexed)
}
