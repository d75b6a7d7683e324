//! Declarations at the head of a body.

ghost use Rattle.std.specs.Prelude.{◌≡◌, ◌≤◌, ◌++◌, length, map, option_map, slice_get, IfOk};
ghost use Rattle.std.specs.Option.{option_copied};
ghost use Rattle.dj_names.specs.Types.{view_type};
ghost use Rattle.dj_syntax.specs.Trees.{Variable, view_exp, view_stm};
ghost use Rattle.dj_declare.specs.Heads.{dummy as dummy_of};
ghost use Rattle.dj_declaring.specs.Entries as spec;
ghost use Rattle.dj_declarer.specs.Declarations.{declaration_of, declarations_of};

use dj_declaring::Entry;
use dj_names::{Boxed, Items, JType};
use dj_syntax::{Exp, Stm, Var, VarKind};
use std::alloc::{AllocError, Global};

/// The dummy value of a type.
fn dummy(kind: &JType) -> Exp
    ensures dummy { view_exp result ≡ dummy_of (view_type kind.now) }
{
    match kind {
        JType::Boolean => Exp::Bool(false),
        JType::Int => Exp::Int(0),
        JType::Long => Exp::Long(0),
        JType::Byte
        | JType::Char
        | JType::Short
        | JType::Float
        | JType::Double
        | JType::Class(_)
        | JType::Array(_) => Exp::Null,
    }
}

/// A parameter of a type as a first value; a boolean is an int there.
fn copied(alloc: Global, kind: &JType, parameter: Var) -> Result<Exp, AllocError>
    ensures copied { IfOk result (λ copy. view_exp copy ≡ spec.copied (view_type kind.now) (Variable parameter)) }
{
    match kind {
        JType::Boolean => {
            let test = Boxed::new(alloc, Exp::Var(parameter))?;
            let one = Boxed::new(alloc, Exp::Int(1))?;
            let zero = Boxed::new(alloc, Exp::Int(0))?;
            Ok(Exp::Choice(test, one, zero))
        }
        JType::Byte
        | JType::Char
        | JType::Short
        | JType::Int
        | JType::Long
        | JType::Float
        | JType::Double
        | JType::Class(_)
        | JType::Array(_) => Ok(Exp::Var(parameter)),
    }
}

/// Whether a variable, where there is one, is the one of this number.
fn is_it(one: Option<u32>, number: u32) -> bool
    ensures it { result ≡ spec.is_it one number }
{
    match one {
        None => false,
        Some(one) => one == number,
    }
}

/// The first of these parameters that the variable of this number holds.
fn place_in(list: &[Option<u32>], number: u32) -> Option<usize>
    ensures place { result ≡ spec.place_in list.now 0 number }
{
    for place in 0..list.len() {
        if is_it(list[place], number) {
            return Some(place);
        }
    }
    None
}

/// A parameter that a variable of a type holds, where there is one, or else the dummy value.
fn first_copy(
    alloc: Global,
    parameters: &[JType],
    kind: &JType,
    place: Option<usize>,
) -> Result<Exp, AllocError>
    requires few { length parameters.now ≤ 4294967295 }
    ensures copied { IfOk result (λ copy. view_exp copy ≡ spec.first_copy (map view_type parameters.now) (view_type kind.now) place) }
{
    match place {
        None => Ok(dummy(kind)),
        Some(place) => match parameters.get(place) {
            None => Ok(dummy(kind)),
            Some(given) => {
                let parameter = Var {
                    kind: VarKind::Param,
                    number: place as u32,
                };
                copied(alloc, given, parameter)
            }
        },
    }
}

/// The first value of the variable of this number and type.
fn first_value(
    alloc: Global,
    parameters: &[JType],
    entry: &Entry,
    kind: &JType,
    number: u32,
) -> Result<Exp, AllocError>
    requires few { length parameters.now ≤ 4294967295 }
    ensures value { IfOk result (λ first. view_exp first ≡ spec.first_value (map view_type parameters.now) entry.now (view_type kind.now) number) }
{
    if is_it(entry.itself, number) {
        return Ok(Exp::This);
    }
    first_copy(
        alloc,
        parameters,
        kind,
        place_in(entry.parameters.as_slice(), number),
    )
}

/// What stands at a place of types.
fn type_at(kinds: &[JType], at: usize) -> Option<&JType>
    ensures there { option_copied result ≡ slice_get kinds.now at }
{
    kinds.get(at)
}

/// The kind of a variable, where it has one.
fn kind_at(alloc: Global, kinds: &[JType], number: u32) -> Result<JType, AllocError>
    ensures kind { IfOk result (λ kind. view_type kind ≡ spec.kind_or_int (slice_get (map view_type kinds.now) number)) }
{
    match type_at(kinds, number as usize) {
        None => Ok(JType::Int),
        Some(kind) => {
            let copy = kind.copy(alloc)?;
            Ok(copy)
        }
    }
}

/// The declaration of a variable of a kind.
fn declare_local(
    alloc: Global,
    parameters: &[JType],
    entry: &Entry,
    variable: Var,
    kind: JType,
) -> Result<Stm, AllocError>
    requires few { length parameters.now ≤ 4294967295 }
    ensures local { IfOk result (λ made. view_stm made ≡ spec.local_declaration (map view_type parameters.now) entry.now variable (view_type kind)) }
{
    let first = first_value(alloc, parameters, entry, &kind, variable.number)?;
    Ok(Stm::Declare(variable, kind, Some(first)))
}

/// The declaration of a variable at the head.
fn declaration(
    alloc: Global,
    kinds: &[JType],
    parameters: &[JType],
    entry: &Entry,
    variable: Var,
) -> Result<Stm, AllocError>
    requires few { length parameters.now ≤ 4294967295 }
    ensures declaration { IfOk result (λ made. view_stm made ≡ declaration_of (spec.head_of (map view_type kinds.now) (map view_type parameters.now) entry.now variable)) }
{
    match variable.kind {
        VarKind::Local => {
            let kind = kind_at(alloc, kinds, variable.number)?;
            declare_local(alloc, parameters, entry, variable, kind)
        }
        VarKind::Param | VarKind::Caught | VarKind::State => {
            Ok(Stm::Declare(variable, JType::Int, Some(Exp::Int(0))))
        }
    }
}

/// Puts the declarations of these variables behind statements.
pub fn push_declarations(
    alloc: Global,
    kinds: &[JType],
    parameters: &[JType],
    entry: &Entry,
    variables: &[Var],
    list: &mut Items<Stm>,
) -> Result<(), AllocError>
    requires few { length parameters.now ≤ 4294967295 }
    ensures pushed { IfOk result (λ _. map view_stm list.new ≡ map view_stm list.old ++ declarations_of (spec.heads_of (map view_type kinds.now) (map view_type parameters.now) entry.now variables.now)) }
{
    for variable in variables {
        let one = declaration(alloc, kinds, parameters, entry, *variable)?;
        list.push(one)?;
    }
    Ok(())
}
