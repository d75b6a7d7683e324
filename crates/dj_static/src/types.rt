//! The types of expressions (JLS 4.3, 5.6, 15), as far as meaning rests on them. Each form has a function
//! of its own, so that the recursion takes little of the stack a level.

ghost use Rattle.std.specs.Prelude.{◌≡◌, IfOk, Some, map, option_and_then};
ghost use Rattle.std.specs.Option.{option_map, option_copied};
ghost use Rattle.dj_names.specs.Types.{Of, Class, view_type, view_static};
ghost use Rattle.dj_values.specs.Fits.{element_of};
ghost use Rattle.dj_syntax.specs.Trees as trees;
ghost use Rattle.dj_syntax.specs.Trees.{view_exp, view_exps};
ghost use Rattle.dj_meaning.specs.Promotions as promotions;
ghost use Rattle.dj_meaning.specs.StaticTypes as spec;
ghost use Rattle.dj_meaning.specs.Targets as targets;
ghost use Rattle.dj_static.specs.Targets.{view_target};
ghost use Rattle.dj_static.specs.Scopes.{scope_of};
ghost use Rattle.dj_static.specs.Views.{context_in};

use crate::classes::Classes;
use crate::fields::{Selection, named_field, selected};
use crate::scope::Scope;
use crate::targets::{Target, of_class, of_object, of_super};
use dj_headers::class_of;
use dj_names::{ClassName, Items, JType, Shared, StaticType, Units};
use dj_operators::{becomes_floating, promoted, result_type};
use dj_syntax::{Exp, Op};
use std::alloc::{AllocError, Global};

/// An array of arrays, so many times.
pub fn array_of(alloc: Global, dimensions: u64, kind: &JType) -> Result<JType, AllocError>
    ensures array { IfOk result (λ array. view_type array ≡ spec.array_of dimensions (view_type kind.now)) }
{
    let mut array = kind.copy(alloc)?;
    for _ in 0..dimensions {
        array = JType::Array(Shared::new(alloc, array)?);
    }
    Ok(array)
}

/// The type of an array's elements.
pub fn element_of(kind: &JType) -> Option<&JType>
    ensures element { option_map view_type (option_copied result) ≡ element_of (view_type kind.now) }
{
    match kind {
        JType::Array(element) => Some(element.get()),
        JType::Boolean
        | JType::Byte
        | JType::Char
        | JType::Short
        | JType::Int
        | JType::Long
        | JType::Float
        | JType::Double
        | JType::Class(_) => None,
    }
}

/// A type of the machine among the types of expressions.
fn plain(found: Option<StaticType>) -> Option<JType>
    ensures plain { option_map view_type result ≡ spec.plain (option_map view_static found) }
{
    match found {
        None => None,
        Some(StaticType::Null) => None,
        Some(StaticType::Of(kind)) => Some(kind),
    }
}

/// A type of the machine as that of an expression.
fn typed(found: Option<JType>) -> Option<StaticType>
    ensures typed { option_map view_static result ≡ spec.typed (option_map view_type found) }
{
    match found {
        None => None,
        Some(kind) => Some(StaticType::Of(kind)),
    }
}

/// A copy of a type as that of an expression, where there is one.
fn copied(alloc: Global, found: Option<&JType>) -> Result<Option<StaticType>, AllocError>
    ensures typed { IfOk result (λ copy. option_map view_static copy ≡ spec.typed (option_map view_type (option_copied found.entry))) }
{
    match found {
        None => Ok(None),
        Some(kind) => Ok(Some(StaticType::Of(kind.copy(alloc)?))),
    }
}

/// The type of objects of a class.
fn object_type(alloc: Global, class: &ClassName) -> Result<Option<StaticType>, AllocError>
    ensures typed { IfOk result (λ found. option_map view_static found ≡ Some (Of (Class class.now))) }
{
    Ok(Some(StaticType::Of(JType::Class(class.copy(alloc)?))))
}

/// The type of objects of a class of the Java library.
fn library_type(alloc: Global, class: &str) -> Result<Option<StaticType>, AllocError>
    ensures typed { IfOk result (λ found. option_map view_static found ≡ Some (Of (Class class.now))) }
{
    Ok(Some(StaticType::Of(JType::Class(class_of(alloc, class)?))))
}

/// The type of a static field of a class.
fn static_type(
    alloc: Global,
    classes: &Classes<'_>,
    scope: &Scope,
    class: &ClassName,
    name: &Units,
) -> Result<Option<StaticType>, AllocError>
    ensures typed { IfOk result (λ found. option_map view_static found ≡ spec.type_of (context_in classes.now) (scope_of scope.now) (trees.Static class.now name.now)) }
{
    match named_field(alloc, classes, class, name)? {
        None => Ok(None),
        Some(field) => copied(alloc, Some(&field.descriptor)),
    }
}

/// The type of a new array.
fn array_type(
    alloc: Global,
    classes: &Classes<'_>,
    scope: &Scope,
    kind: &JType,
    sizes: &[Exp],
    more: u32,
) -> Result<Option<StaticType>, AllocError>
    ensures typed { IfOk result (λ found. option_map view_static found ≡ spec.type_of (context_in classes.now) (scope_of scope.now) (trees.NewArray (view_type kind.now) (view_exps sizes.now) more)) }
{
    let array = array_of(alloc, sizes.len() as u64 + u64::from(more), kind)?;
    Ok(Some(StaticType::Of(array)))
}

/// What a call of a target gives, where there is one.
fn given_type(alloc: Global, target: Option<Target>) -> Result<Option<StaticType>, AllocError>
    ensures typed { IfOk result (λ found. option_map view_static found ≡ spec.typed (option_and_then targets.result (option_map view_target target))) }
{
    match target {
        None => Ok(None),
        Some(target) => copied(alloc, target.result()),
    }
}

/// The type of a call of an object's method, given the types of the object and of the arguments.
fn called_type(
    alloc: Global,
    classes: &Classes<'_>,
    object: &Option<JType>,
    name: &Units,
    arguments: &Option<Items<StaticType>>,
) -> Result<Option<StaticType>, AllocError>
    ensures typed { IfOk result (λ found. option_map view_static found
        ≡ spec.typed (option_and_then targets.result (spec.object_target (context_in classes.now) name.now (option_map view_type object.now) (option_map (map view_static) arguments.now)))) }
{
    match arguments {
        None => Ok(None),
        Some(arguments) => match object {
            None => Ok(None),
            Some(kind) => {
                let target = of_object(alloc, classes, kind, name, arguments.as_slice())?;
                given_type(alloc, target)
            }
        },
    }
}

/// The type of an operator's result, given those of its operands.
fn operator_type(operator: Op, left: &Option<JType>, right: &Option<JType>) -> Option<StaticType>
    ensures typed { option_map view_static result ≡ spec.typed (promotions.result_type (promotions.typing_of operator) (option_map view_type left.now) (option_map view_type right.now)) }
{
    typed(result_type(operator, left.as_ref(), right.as_ref()))
}

/// The type of an expression where it is one of the machine.
#[cycle(types)]
pub fn plain_type_of(
    alloc: Global,
    classes: &Classes<'_>,
    scope: &Scope,
    exp: &Exp,
) -> Result<Option<JType>, AllocError>
    ensures typed { IfOk result (λ found. option_map view_type found ≡ spec.plain (spec.type_of (context_in classes.now) (scope_of scope.now) (view_exp exp.now))) }
{
    Ok(plain(type_of(alloc, classes, scope, exp)?))
}

/// The type of what a name selects of an expression.
#[cycle(types)]
fn field_type(
    alloc: Global,
    classes: &Classes<'_>,
    scope: &Scope,
    object: &Exp,
    name: &Units,
) -> Result<Option<StaticType>, AllocError>
    ensures typed { IfOk result (λ found. option_map view_static found ≡ spec.type_of (context_in classes.now) (scope_of scope.now) (trees.Field (view_exp object.now) name.now)) }
{
    match plain_type_of(alloc, classes, scope, object)? {
        None => Ok(None),
        Some(kind) => match selected(alloc, classes, name, &kind)? {
            None => Ok(None),
            Some(Selection::Length) => Ok(Some(StaticType::Of(JType::Int))),
            Some(Selection::Field(field)) => copied(alloc, Some(&field.descriptor)),
        },
    }
}

/// The type of an array's elements, given the array.
#[cycle(types)]
fn element_type(
    alloc: Global,
    classes: &Classes<'_>,
    scope: &Scope,
    array: &Exp,
    index: &Exp,
) -> Result<Option<StaticType>, AllocError>
    ensures typed { IfOk result (λ found. option_map view_static found ≡ spec.type_of (context_in classes.now) (scope_of scope.now) (trees.Element (view_exp array.now) (view_exp index.now))) }
{
    match plain_type_of(alloc, classes, scope, array)? {
        None => Ok(None),
        Some(kind) => copied(alloc, element_of(&kind)),
    }
}

/// The type of a call of a static method.
#[cycle(types)]
fn static_call_type(
    alloc: Global,
    classes: &Classes<'_>,
    scope: &Scope,
    class: &ClassName,
    name: &Units,
    arguments: &[Exp],
) -> Result<Option<StaticType>, AllocError>
    ensures typed { IfOk result (λ found. option_map view_static found ≡ spec.type_of (context_in classes.now) (scope_of scope.now) (trees.StaticCall class.now name.now (view_exps arguments.now))) }
{
    match types_of(alloc, classes, scope, arguments)? {
        None => Ok(None),
        Some(arguments) => {
            let target = of_class(alloc, classes, class, name, arguments.as_slice())?;
            given_type(alloc, target)
        }
    }
}

/// The type of a call behind `super`.
#[cycle(types)]
fn super_call_type(
    alloc: Global,
    classes: &Classes<'_>,
    scope: &Scope,
    above: &Option<ClassName>,
    name: &Units,
    arguments: &[Exp],
) -> Result<Option<StaticType>, AllocError>
    ensures typed { IfOk result (λ found. option_map view_static found ≡ spec.type_of (context_in classes.now) (scope_of scope.now) (trees.SuperCall above.now name.now (view_exps arguments.now))) }
{
    match types_of(alloc, classes, scope, arguments)? {
        None => Ok(None),
        Some(arguments) => {
            let target = of_super(alloc, classes, above.as_ref(), name, arguments.as_slice())?;
            given_type(alloc, target)
        }
    }
}

/// The type of a number with its sign changed.
#[cycle(types)]
fn negative_type(
    alloc: Global,
    classes: &Classes<'_>,
    scope: &Scope,
    operand: &Exp,
) -> Result<Option<StaticType>, AllocError>
    ensures typed { IfOk result (λ found. option_map view_static found ≡ spec.type_of (context_in classes.now) (scope_of scope.now) (trees.Negative (view_exp operand.now))) }
{
    match plain_type_of(alloc, classes, scope, operand)? {
        None => Ok(None),
        Some(kind) => match promoted(&kind) {
            None => Ok(None),
            Some(number) => Ok(Some(StaticType::Of(number.kind()))),
        },
    }
}

/// Whether the operands of an operator become floats or doubles.
pub fn is_floating_pair(
    alloc: Global,
    classes: &Classes<'_>,
    scope: &Scope,
    operator: Op,
    left: &Exp,
    right: &Exp,
) -> Result<bool, AllocError>
    ensures floating { IfOk result (λ floating. floating ≡ promotions.becomes_floating (promotions.typing_of operator) (spec.plain (spec.type_of (context_in classes.now) (scope_of scope.now) (view_exp left.now)))
        (spec.plain (spec.type_of (context_in classes.now) (scope_of scope.now) (view_exp right.now)))) }
{
    let left = plain_type_of(alloc, classes, scope, left)?;
    let right = plain_type_of(alloc, classes, scope, right)?;
    Ok(becomes_floating(operator, left.as_ref(), right.as_ref()))
}

/// The type of an expression, none where it has none.
#[cycle(types)]
pub fn type_of(
    alloc: Global,
    classes: &Classes<'_>,
    scope: &Scope,
    exp: &Exp,
) -> Result<Option<StaticType>, AllocError>
    ensures typed { IfOk result (λ found. option_map view_static found ≡ spec.type_of (context_in classes.now) (scope_of scope.now) (view_exp exp.now)) }
{
    match exp {
        Exp::Int(_) => Ok(Some(StaticType::Of(JType::Int))),
        Exp::Long(_) => Ok(Some(StaticType::Of(JType::Long))),
        Exp::Text(_) => library_type(alloc, "java/lang/String"),
        Exp::Bool(_) => Ok(Some(StaticType::Of(JType::Boolean))),
        Exp::Null => Ok(Some(StaticType::Null)),
        Exp::This => object_type(alloc, classes.from),
        Exp::Var(variable) => copied(alloc, scope.kind(*variable)),
        Exp::ClassOf(_) => library_type(alloc, "java/lang/Class"),
        Exp::Field(object, name) => field_type(alloc, classes, scope, object.get(), name),
        Exp::Static(class, name) => static_type(alloc, classes, scope, class, name),
        Exp::Element(array, index) => {
            element_type(alloc, classes, scope, array.get(), index.get())
        }
        Exp::Call(object, name, arguments) => {
            let arguments = types_of(alloc, classes, scope, arguments.get().as_slice())?;
            let object = plain_type_of(alloc, classes, scope, object.get())?;
            called_type(alloc, classes, &object, name, &arguments)
        }
        Exp::StaticCall(class, name, arguments) => {
            let arguments = arguments.get().as_slice();
            static_call_type(alloc, classes, scope, class, name, arguments)
        }
        Exp::SuperCall(above, name, arguments) => {
            let arguments = arguments.get().as_slice();
            super_call_type(alloc, classes, scope, above, name, arguments)
        }
        Exp::New(class, _) => object_type(alloc, class),
        Exp::NewArray(kind, sizes, more) => {
            array_type(alloc, classes, scope, kind, sizes.get().as_slice(), *more)
        }
        Exp::Cast(kind, _) => copied(alloc, Some(kind)),
        Exp::InstanceOf(_, _) => Ok(Some(StaticType::Of(JType::Boolean))),
        Exp::Negative(operand) => negative_type(alloc, classes, scope, operand.get()),
        Exp::Not(_) => Ok(Some(StaticType::Of(JType::Boolean))),
        Exp::Binary(operator, left, right) => {
            let left = plain_type_of(alloc, classes, scope, left.get())?;
            let right = plain_type_of(alloc, classes, scope, right.get())?;
            Ok(operator_type(*operator, &left, &right))
        }
        Exp::Choice(_, first, second) => match type_of(alloc, classes, scope, first.get())? {
            None => Ok(None),
            Some(StaticType::Null) => type_of(alloc, classes, scope, second.get()),
            Some(StaticType::Of(kind)) => Ok(Some(StaticType::Of(kind))),
        },
        Exp::Assign(variable, _) => copied(alloc, scope.kind(*variable)),
    }
}

/// The types of expressions, none where one has none.
#[cycle(types)]
pub fn types_of(
    alloc: Global,
    classes: &Classes<'_>,
    scope: &Scope,
    exps: &[Exp],
) -> Result<Option<Items<StaticType>>, AllocError>
    ensures typed { IfOk result (λ found. option_map (map view_static) found ≡ spec.types_of (context_in classes.now) (scope_of scope.now) (view_exps exps.now)) }
{
    let mut types = Items::new(alloc);
    for exp in exps {
        match type_of(alloc, classes, scope, exp)? {
            Some(kind) => types.push(kind)?,
            None => return Ok(None),
        }
    }
    Ok(Some(types))
}
