//! Parentheses, brackets and commas of an expression (JLS 15.8.5, 15.9, 15.10, 15.12, 15.13, 15.16).

ghost use Rattle.std.specs.Prelude.{◌≡◌, [], ◌∷◌, ◌++◌, map, IfOk, Some, option_map};
ghost use Rattle.dj_names.specs.Types.{Array, view_type};
ghost use Rattle.dj_syntax.specs.Trees.{Element, exps_of, view_exp};
ghost use Rattle.dj_grammar.specs.Brackets.{above_in, called_by, called_plainly, at_opener, callee_of, close_parenthesis, close_bracket, close_ended, close_opener, index_ended, index_opener, next, next_ended, next_opener, no_arguments, open_parenthesis, open_arguments, open_bracket, open_named, pair_opener};
ghost use Rattle.dj_grammar.specs.Frames.{Arguments, Bracket, Creation, Joins, Negated, Opens, Parenthesis, Size, called, collapsed, creating, opened};
ghost use Rattle.dj_grammar.specs.Readings.{Called, Lost, Named, Sized, Stands, Typed, Wanted, ended};
ghost use Rattle.dj_tokens.specs.Dotted.{type_of_name, value_of, whole};
ghost use Rattle.dj_tokens.specs.DottedViews.{view_name};
ghost use Rattle.dj_expressions.specs.Views.{view_callee, view_joint, view_open, view_opener, view_reading, view_standing};

use crate::frames::{
    Callee, Joint, Opener, Pending, Standing, called, discard, joined, opened_again, pop_opener,
    take_creation, take_parenthesis,
};
use crate::readings::Reading;
use dj_names::{Boxed, ClassName, Items, JType, Shared, Units};
use dj_syntax::Exp;
use dj_tokens::{DottedName, KnownNames};
use std::alloc::{AllocError, Global};

/// How many units `super` and the slash before it have.
const BEHIND_INTERFACE: usize = 6;

impl Reading {
    /// A parenthesis opens.
    pub fn open(self, alloc: Global, names: &mut KnownNames) -> Result<Reading, AllocError>
        ensures opened { IfOk result (λ reading. view_reading reading ≡ open_parenthesis (view_reading self)) }
    {
        match self {
            Reading::Wanted(pending) => open_more(pending, Opener::Parenthesis),
            Reading::Negation(pending) => open_behind_minus(pending),
            Reading::Head(pending) => Ok(Reading::Wanted(pending)),
            Reading::Named(name, pending) => open_named(alloc, names, name, pending),
            Reading::Stands(value, pending) => open_arguments(alloc, called_by(value), pending),
            Reading::Helping(pending) => open_arguments(alloc, Some(Callee::Helper), pending),
            Reading::Behind(_, _)
            | Reading::Typed(_, _)
            | Reading::Sized(_, _, _, _)
            | Reading::Called(_, _, _)
            | Reading::Declared(_, _, _)
            | Reading::Selecting(_, _)
            | Reading::Lost => Ok(self.lost()),
        }
    }

    /// A parenthesis closes.
    pub fn close(self, alloc: Global) -> Result<Reading, AllocError>
        ensures closed { IfOk result (λ reading. view_reading reading ≡ close_parenthesis (view_reading self)) }
    {
        match self {
            Reading::Wanted(pending) => Ok(close_wanted(pending)),
            Reading::Named(name, pending) => close_named(alloc, name, pending),
            Reading::Typed(kind, pending) => close_typed(alloc, kind, pending),
            Reading::Declared(_, _, _) => Ok(self),
            Reading::Sized(_, _, _, _)
            | Reading::Called(_, _, _)
            | Reading::Stands(_, _)
            | Reading::Negation(_)
            | Reading::Head(_)
            | Reading::Behind(_, _)
            | Reading::Selecting(_, _)
            | Reading::Helping(_)
            | Reading::Lost => close_value(alloc, self),
        }
    }

    /// A bracket opens.
    pub fn open_bracket(self, alloc: Global) -> Result<Reading, AllocError>
        ensures opened { IfOk result (λ reading. view_reading reading ≡ open_bracket (view_reading self)) }
    {
        match self {
            Reading::Named(name, pending) => bracket_name(alloc, name, pending),
            Reading::Typed(kind, pending) => open_more(pending, Opener::TypeBracket(kind)),
            Reading::Sized(kind, sizes, more, pending) => {
                open_more(pending, Opener::Size(kind, sizes, more))
            }
            Reading::Called(callee, arguments, pending) => {
                bracket_call(alloc, callee, arguments, pending)
            }
            Reading::Stands(value, pending) => open_more(pending, Opener::Bracket(value)),
            Reading::Wanted(_)
            | Reading::Negation(_)
            | Reading::Head(_)
            | Reading::Behind(_, _)
            | Reading::Declared(_, _, _)
            | Reading::Selecting(_, _)
            | Reading::Helping(_)
            | Reading::Lost => Ok(self.lost()),
        }
    }

    /// A bracket closes.
    pub fn close_bracket(self, alloc: Global) -> Result<Reading, AllocError>
        ensures closed { IfOk result (λ reading. view_reading reading ≡ close_bracket (view_reading self)) }
    {
        match self.into_wanted() {
            Ok(pending) => pair(alloc, pending),
            Err(reading) => {
                let end = reading.ended(alloc)?;
                index_ended(alloc, end)
            }
        }
    }

    /// A comma.
    pub fn next(self, alloc: Global) -> Result<Reading, AllocError>
        ensures next { IfOk result (λ reading. view_reading reading ≡ next (view_reading self)) }
    {
        let end = self.ended(alloc)?;
        let reading = next_ended(end)?;
        Ok(reading)
    }
}

/// A place more is open, in which an operand is wanted.
pub fn open_more(mut pending: Items<Pending>, opener: Opener) -> Result<Reading, AllocError>
    ensures opened { IfOk result (λ reading. view_reading reading ≡ Wanted (Opens (view_opener opener) ∷ view_open pending)) }
{
    pending.push(Pending::Opens(opener))?;
    Ok(Reading::Wanted(pending))
}

/// Something more waits for its operand.
pub fn wait_more(mut pending: Items<Pending>, joint: Joint) -> Result<Reading, AllocError>
    ensures waits { IfOk result (λ reading. view_reading reading ≡ Wanted (Joins (view_joint joint) ∷ view_open pending)) }
{
    pending.push(Pending::Joins(joint))?;
    Ok(Reading::Wanted(pending))
}

/// A parenthesis opens behind a minus sign.
fn open_behind_minus(mut pending: Items<Pending>) -> Result<Reading, AllocError>
    ensures opened { IfOk result (λ reading. view_reading reading ≡ Wanted (Opens Parenthesis ∷ Joins Negated ∷ view_open pending)) }
{
    match pending.push(Pending::Joins(Joint::Negated)) {
        Ok(()) => open_more(pending, Opener::Parenthesis),
        Err(error) => {
            discard(pending);
            Err(error)
        }
    }
}

/// A bracket opens behind a call.
fn bracket_call(
    alloc: Global,
    callee: Callee,
    arguments: Items<Exp>,
    pending: Items<Pending>,
) -> Result<Reading, AllocError>
    ensures opened { IfOk result (λ reading. view_reading reading ≡ Wanted (Opens (Bracket (called (view_callee callee) (exps_of (map view_exp arguments)))) ∷ view_open pending)) }
{
    match called(alloc, callee, arguments) {
        Ok(value) => open_more(pending, Opener::Bracket(value)),
        Err(error) => {
            discard(pending);
            Err(error)
        }
    }
}

/// What a value calls: a method of its object, where it is a field, or a constructor, where it is `this`.
fn called_by(value: Exp) -> Option<Callee>
    ensures called { option_map view_callee result ≡ called_by (view_exp value) }
{
    match value {
        Exp::Field(object, name) => Some(Callee::OfObject(object, name)),
        Exp::This => Some(Callee::Own(true)),
        _ => {
            discard(value);
            None
        }
    }
}

/// What stands before `super` in a prefix that ends with it: an interface, where more does.
fn above_in(mut prefix: Vec<u16>) -> Result<Option<ClassName>, AllocError>
    ensures above { IfOk result (λ above. above ≡ above_in prefix.items) }
{
    let length = prefix.len();
    if length < BEHIND_INTERFACE {
        return Ok(None);
    }
    prefix.truncate(length - BEHIND_INTERFACE);
    Ok(Some(ClassName::new(Units::from_vec(prefix)?)))
}

/// The class of this name.
fn class_named(
    alloc: Global,
    names: &mut KnownNames,
    name: Vec<u16>,
) -> Result<ClassName, AllocError>
    ensures named { IfOk result (λ class. class ≡ name.items) }
{
    let units = names.shared(alloc, name)?;
    Ok(ClassName::new(units))
}

/// What a name that doesn't begin with a variable calls.
fn called_plainly(
    alloc: Global,
    names: &mut KnownNames,
    prefix: Option<Vec<u16>>,
    behind_super: bool,
    last: Units,
) -> Result<Callee, AllocError>
    ensures called { IfOk result (λ callee. view_callee callee ≡ called_plainly (option_map (λ prefix. prefix.items) prefix) behind_super last) }
{
    match prefix {
        None => Ok(Callee::Own(false)),
        Some(prefix) => {
            if behind_super {
                Ok(Callee::Above(above_in(prefix)?, last))
            } else {
                Ok(Callee::OfClass(class_named(alloc, names, prefix)?, last))
            }
        }
    }
}

/// What a name calls.
fn callee_of(
    alloc: Global,
    names: &mut KnownNames,
    name: DottedName,
) -> Result<Option<Callee>, AllocError>
    ensures called { IfOk result (λ callee. option_map view_callee callee ≡ callee_of (view_name name)) }
{
    let DottedName {
        value,
        prefix,
        last,
        behind_super,
        ..
    } = name;
    match value {
        Some(value) => Ok(called_by(value.into_inner())),
        None => {
            let callee = called_plainly(alloc, names, prefix, behind_super, last)?;
            Ok(Some(callee))
        }
    }
}

/// Arguments of what is called begin, where something is.
fn open_arguments(
    alloc: Global,
    callee: Option<Callee>,
    pending: Items<Pending>,
) -> Result<Reading, AllocError>
    ensures opened { IfOk result (λ reading. view_reading reading ≡ open_arguments (option_map view_callee callee) (view_open pending)) }
{
    match callee {
        None => Ok(Reading::Lost),
        Some(callee) => open_more(pending, Opener::Arguments(callee, Items::new(alloc))),
    }
}

/// Arguments behind a name: those of a new object behind `new`.
fn open_named(
    alloc: Global,
    names: &mut KnownNames,
    name: DottedName,
    mut pending: Items<Pending>,
) -> Result<Reading, AllocError>
    ensures opened { IfOk result (λ reading. view_reading reading ≡ open_named (view_name name) (view_open pending) (creating (view_open pending))) }
{
    match take_creation(&mut pending) {
        Ok(true) => create_named(alloc, name, pending),
        Ok(false) => call_named(alloc, names, name, pending),
        Err(error) => {
            discard(name);
            discard(pending);
            Err(error)
        }
    }
}

/// Arguments of a new object of the class that a name names.
fn create_named(
    alloc: Global,
    name: DottedName,
    outer: Items<Pending>,
) -> Result<Reading, AllocError>
    ensures opened { IfOk result (λ reading. view_reading reading ≡ open_arguments (Some (Creation (whole (view_name name)))) (view_open outer)) }
{
    match name.into_class(alloc) {
        Ok(class) => open_arguments(alloc, Some(Callee::Creation(class)), outer),
        Err(error) => {
            discard(outer);
            Err(error)
        }
    }
}

/// Arguments of what a name calls.
fn call_named(
    alloc: Global,
    names: &mut KnownNames,
    name: DottedName,
    pending: Items<Pending>,
) -> Result<Reading, AllocError>
    ensures opened { IfOk result (λ reading. view_reading reading ≡ open_arguments (callee_of (view_name name)) (view_open pending)) }
{
    match callee_of(alloc, names, name) {
        Ok(callee) => open_arguments(alloc, callee, pending),
        Err(error) => {
            discard(pending);
            Err(error)
        }
    }
}

/// A parenthesis closes where an operand is wanted: behind no argument.
fn close_wanted(mut pending: Items<Pending>) -> Reading
    ensures closed { view_reading result ≡ at_opener no_arguments (opened (view_open pending)) }
{
    match pop_opener(&mut pending) {
        Some(opener) => no_arguments(opener, pending),
        None => Reading::Lost,
    }
}

/// The arguments that are open without one.
fn no_arguments(opener: Opener, outer: Items<Pending>) -> Reading
    ensures closed { view_reading result ≡ no_arguments (view_opener opener) (view_open outer) }
{
    match opener {
        Opener::Arguments(callee, arguments) => Reading::Called(callee, arguments, outer),
        Opener::Parenthesis
        | Opener::Bracket(_)
        | Opener::NameBracket(_)
        | Opener::TypeBracket(_)
        | Opener::Size(_, _, _)
        | Opener::Start(_)
        | Opener::Stored(_, _)
        | Opener::Initial(_, _, _) => lost(opener, outer),
    }
}

/// A parenthesis closes behind a name: around a name alone it is a conversion.
fn close_named(
    alloc: Global,
    name: DottedName,
    mut pending: Items<Pending>,
) -> Result<Reading, AllocError>
    ensures closed { IfOk result (λ reading. view_reading reading ≡ close_parenthesis (Named (view_name name) (view_open pending))) }
{
    match take_parenthesis(&mut pending) {
        Ok(true) => wait_more(pending, Joint::Enclosed(name)),
        Ok(false) => close_value(alloc, Reading::Named(name, pending)),
        Err(error) => {
            discard(name);
            discard(pending);
            Err(error)
        }
    }
}

/// A parenthesis closes behind a type with brackets: around a type alone it is a conversion.
fn close_typed(
    alloc: Global,
    kind: JType,
    mut pending: Items<Pending>,
) -> Result<Reading, AllocError>
    ensures closed { IfOk result (λ reading. view_reading reading ≡ close_parenthesis (Typed (view_type kind) (view_open pending))) }
{
    match take_parenthesis(&mut pending) {
        Ok(true) => wait_more(pending, Joint::Converted(kind)),
        Ok(false) => close_value(alloc, Reading::Typed(kind, pending)),
        Err(error) => {
            discard(kind);
            discard(pending);
            Err(error)
        }
    }
}

/// A parenthesis closes behind what may be a value.
fn close_value(alloc: Global, reading: Reading) -> Result<Reading, AllocError>
    ensures closed { IfOk result (λ closed. view_reading closed ≡ close_ended (ended (view_reading reading))) }
{
    let stands = reading.standing(alloc)?;
    close_standing(alloc, stands)
}

/// A parenthesis closes behind a value, where one stands.
fn close_standing(alloc: Global, stands: Option<Standing>) -> Result<Reading, AllocError>
    ensures closed { IfOk result (λ reading. view_reading reading ≡ close_ended (option_map (λ stands. collapsed stands.0 stands.1) (option_map view_standing stands))) }
{
    match stands {
        None => Ok(Reading::Lost),
        Some(Standing { value, pending }) => close_around(alloc, value, pending),
    }
}

/// A parenthesis closes behind a value, and behind all that waits for it.
pub fn close_around(
    alloc: Global,
    mut value: Exp,
    mut pending: Items<Pending>,
) -> Result<Reading, AllocError>
    ensures closed { IfOk result (λ reading. view_reading reading ≡ close_ended (Some (collapsed (view_exp value) (view_open pending)))) }
{
    while let Some(frame) = pending.pop() {
        match frame.into_parts() {
            Ok(joint) => value = joined(alloc, joint, value)?,
            Err(opener) => return close_opener(alloc, value, opener, pending),
        }
    }
    Ok(Reading::Stands(value, pending))
}

/// No expression has this behind what was opened.
fn lost(opener: Opener, _outer: Items<Pending>) -> Reading
    ensures lost { view_reading result ≡ Lost }
{
    discard(opener);
    Reading::Lost
}

/// No expression has this value behind what was opened.
fn lost_value(value: Exp, opener: Opener, _outer: Items<Pending>) -> Reading
    ensures lost { view_reading result ≡ Lost }
{
    discard(value);
    discard(opener);
    Reading::Lost
}

/// What closes behind a value: a parenthesis around it, or arguments.
fn close_opener(
    alloc: Global,
    value: Exp,
    opener: Opener,
    outer: Items<Pending>,
) -> Result<Reading, AllocError>
    ensures closed { IfOk result (λ reading. view_reading reading ≡ close_opener (view_exp value) (view_opener opener) (view_open outer)) }
{
    match opener {
        Opener::Parenthesis => Ok(Reading::Stands(value, outer)),
        Opener::Arguments(callee, arguments) => {
            called_with(alloc, callee, arguments, value, outer)
        }
        Opener::Stored(labels, target) => stored(value, Opener::Stored(labels, target), outer),
        Opener::Bracket(_)
        | Opener::NameBracket(_)
        | Opener::TypeBracket(_)
        | Opener::Size(_, _, _)
        | Opener::Start(_)
        | Opener::Initial(_, _, _) => Ok(lost_value(value, opener, outer)),
    }
}

/// A call of what is called with an argument more.
fn called_with(
    alloc: Global,
    callee: Callee,
    arguments: Items<Exp>,
    value: Exp,
    outer: Items<Pending>,
) -> Result<Reading, AllocError>
    ensures called { IfOk result (λ reading. view_reading reading ≡ Called (view_callee callee) (map view_exp arguments ++ view_exp value ∷ []) (view_open outer)) }
{
    match with_last(alloc, arguments, value) {
        Ok(arguments) => Ok(Reading::Called(callee, arguments, outer)),
        Err(error) => {
            discard(callee);
            discard(outer);
            Err(error)
        }
    }
}

/// Values with the last one behind them. One that is alone has a list with room for no other.
fn with_last(alloc: Global, values: Items<Exp>, value: Exp) -> Result<Items<Exp>, AllocError>
    ensures more { IfOk result (λ more. map view_exp more ≡ map view_exp values ++ view_exp value ∷ []) }
{
    if !values.is_empty() {
        return with_value(values, value);
    }
    match Vec::with_capacity(alloc, 1) {
        Ok(room) => with_value(Items::from_vec(room), value),
        Err(error) => {
            discard(value);
            Err(error)
        }
    }
}

/// Values with one more behind them.
fn with_value(mut values: Items<Exp>, value: Exp) -> Result<Items<Exp>, AllocError>
    ensures more { IfOk result (λ more. map view_exp more ≡ map view_exp values ++ view_exp value ∷ []) }
{
    values.push(value)?;
    Ok(values)
}

/// A value stands in what was opened, which is put back.
fn stored(value: Exp, opener: Opener, outer: Items<Pending>) -> Result<Reading, AllocError>
    ensures stored { IfOk result (λ reading. view_reading reading ≡ Stands (view_exp value) (Opens (view_opener opener) ∷ view_open outer)) }
{
    let Standing { value, pending } = opened_again(value, opener, outer)?;
    Ok(Reading::Stands(value, pending))
}

/// A bracket behind a name: a size of a new array behind `new`.
fn bracket_name(
    alloc: Global,
    name: DottedName,
    mut pending: Items<Pending>,
) -> Result<Reading, AllocError>
    ensures opened { IfOk result (λ reading. view_reading reading ≡ open_bracket (Named (view_name name) (view_open pending))) }
{
    match take_creation(&mut pending) {
        Ok(true) => size_of_named(alloc, name, pending),
        Ok(false) => open_more(pending, Opener::NameBracket(name)),
        Err(error) => {
            discard(name);
            discard(pending);
            Err(error)
        }
    }
}

/// A size of a new array of the type that a name names.
fn size_of_named(
    alloc: Global,
    name: DottedName,
    outer: Items<Pending>,
) -> Result<Reading, AllocError>
    ensures opened { IfOk result (λ reading. view_reading reading ≡ Wanted (Opens (Size (type_of_name (view_name name)) [] 0) ∷ view_open outer)) }
{
    match name.into_type(alloc) {
        Ok(kind) => open_more(outer, Opener::Size(kind, Items::new(alloc), 0)),
        Err(error) => {
            discard(outer);
            Err(error)
        }
    }
}

/// A pair of brackets with nothing between them, behind what is open.
fn pair(alloc: Global, mut pending: Items<Pending>) -> Result<Reading, AllocError>
    ensures pair { IfOk result (λ reading. view_reading reading ≡ at_opener pair_opener (opened (view_open pending))) }
{
    match pop_opener(&mut pending) {
        Some(opener) => pair_opener(alloc, opener, pending),
        None => Ok(Reading::Lost),
    }
}

/// A pair of brackets with nothing between them, behind a name, a type or sizes.
fn pair_opener(alloc: Global, opener: Opener, outer: Items<Pending>) -> Result<Reading, AllocError>
    ensures pair { IfOk result (λ reading. view_reading reading ≡ pair_opener (view_opener opener) (view_open outer)) }
{
    match opener {
        Opener::NameBracket(name) => {
            let element = name.into_type(alloc)?;
            array_of(alloc, element, outer)
        }
        Opener::TypeBracket(element) => array_of(alloc, element, outer),
        Opener::Size(kind, sizes, more) => {
            Ok(Reading::Sized(kind, sizes, more.saturating_add(1), outer))
        }
        Opener::Parenthesis
        | Opener::Bracket(_)
        | Opener::Arguments(_, _)
        | Opener::Start(_)
        | Opener::Stored(_, _)
        | Opener::Initial(_, _, _) => Ok(lost(opener, outer)),
    }
}

/// An array type stands.
fn array_of(alloc: Global, element: JType, outer: Items<Pending>) -> Result<Reading, AllocError>
    ensures array { IfOk result (λ reading. view_reading reading ≡ Typed (Array (view_type element)) (view_open outer)) }
{
    let array = JType::Array(Shared::new(alloc, element)?);
    Ok(Reading::Typed(array, outer))
}

/// A bracket closes behind a value that ends, where one does.
fn index_ended(alloc: Global, end: Option<Standing>) -> Result<Reading, AllocError>
    ensures closed { IfOk result (λ reading. view_reading reading ≡ index_ended (option_map view_standing end)) }
{
    match end {
        None => Ok(Reading::Lost),
        Some(Standing { value, pending }) => index_value(alloc, value, pending),
    }
}

/// A bracket closes behind a value, where something was opened.
fn index_value(
    alloc: Global,
    value: Exp,
    mut pending: Items<Pending>,
) -> Result<Reading, AllocError>
    ensures closed { IfOk result (λ reading. view_reading reading ≡ at_opener (index_opener (view_exp value)) (opened (view_open pending))) }
{
    match pop_opener(&mut pending) {
        Some(opener) => index_opener(alloc, value, opener, pending),
        None => {
            discard(value);
            Ok(Reading::Lost)
        }
    }
}

/// What closes behind an index or a size.
fn index_opener(
    alloc: Global,
    index: Exp,
    opener: Opener,
    outer: Items<Pending>,
) -> Result<Reading, AllocError>
    ensures closed { IfOk result (λ reading. view_reading reading ≡ index_opener (view_exp index) (view_opener opener) (view_open outer)) }
{
    match opener {
        Opener::Bracket(array) => element_of(alloc, array, index, outer),
        Opener::NameBracket(name) => element_of_named(alloc, name, index, outer),
        Opener::Size(kind, sizes, more) => sized_with(kind, sizes, more, index, outer),
        Opener::Parenthesis
        | Opener::TypeBracket(_)
        | Opener::Arguments(_, _)
        | Opener::Start(_)
        | Opener::Stored(_, _)
        | Opener::Initial(_, _, _) => Ok(lost_value(index, opener, outer)),
    }
}

/// An element of an array stands.
fn element_of(
    alloc: Global,
    array: Exp,
    index: Exp,
    outer: Items<Pending>,
) -> Result<Reading, AllocError>
    ensures element { IfOk result (λ reading. view_reading reading ≡ Stands (Element (view_exp array) (view_exp index)) (view_open outer)) }
{
    match element(alloc, array, index) {
        Ok(value) => Ok(Reading::Stands(value, outer)),
        Err(error) => {
            discard(outer);
            Err(error)
        }
    }
}

/// An element of an array.
fn element(alloc: Global, array: Exp, index: Exp) -> Result<Exp, AllocError>
    ensures element { IfOk result (λ made. view_exp made ≡ Element (view_exp array) (view_exp index)) }
{
    match Boxed::new(alloc, array) {
        Ok(array) => {
            let index = Boxed::new(alloc, index)?;
            Ok(Exp::Element(array, index))
        }
        Err(error) => {
            discard(index);
            Err(error)
        }
    }
}

/// An element of the array that a name is stands.
fn element_of_named(
    alloc: Global,
    name: DottedName,
    index: Exp,
    outer: Items<Pending>,
) -> Result<Reading, AllocError>
    ensures element { IfOk result (λ reading. view_reading reading ≡ Stands (Element (value_of (view_name name)) (view_exp index)) (view_open outer)) }
{
    match name.into_value(alloc) {
        Ok(array) => element_of(alloc, array, index, outer),
        Err(error) => {
            discard(index);
            discard(outer);
            Err(error)
        }
    }
}

/// A new array with a size more.
fn sized_with(
    kind: JType,
    sizes: Items<Exp>,
    more: u32,
    size: Exp,
    outer: Items<Pending>,
) -> Result<Reading, AllocError>
    ensures sized { IfOk result (λ reading. view_reading reading ≡ Sized (view_type kind) (map view_exp sizes ++ view_exp size ∷ []) more (view_open outer)) }
{
    match with_value(sizes, size) {
        Ok(sizes) => Ok(Reading::Sized(kind, sizes, more, outer)),
        Err(error) => {
            discard(kind);
            discard(outer);
            Err(error)
        }
    }
}

/// A comma behind a value that ends, where one does.
fn next_ended(end: Option<Standing>) -> Result<Reading, AllocError>
    ensures next { IfOk result (λ reading. view_reading reading ≡ next_ended (option_map view_standing end)) }
{
    match end {
        None => Ok(Reading::Lost),
        Some(end) => next_argument(end),
    }
}

/// An argument more, where arguments are open.
fn next_argument(end: Standing) -> Result<Reading, AllocError>
    ensures next { IfOk result (λ reading. view_reading reading ≡ next_ended (Some (view_standing end))) }
{
    let Standing { value, mut pending } = end;
    match pop_opener(&mut pending) {
        Some(opener) => next_opener(value, opener, pending),
        None => {
            discard(value);
            Ok(Reading::Lost)
        }
    }
}

/// The same, of what was opened last.
fn next_opener(value: Exp, opener: Opener, outer: Items<Pending>) -> Result<Reading, AllocError>
    ensures next { IfOk result (λ reading. view_reading reading ≡ next_opener (view_exp value) (view_opener opener) (view_open outer)) }
{
    match opener {
        Opener::Arguments(callee, arguments) => next_in(callee, arguments, value, outer),
        Opener::Parenthesis
        | Opener::Bracket(_)
        | Opener::NameBracket(_)
        | Opener::TypeBracket(_)
        | Opener::Size(_, _, _)
        | Opener::Start(_)
        | Opener::Stored(_, _)
        | Opener::Initial(_, _, _) => Ok(lost_value(value, opener, outer)),
    }
}

/// An argument more behind those before.
fn next_in(
    callee: Callee,
    arguments: Items<Exp>,
    value: Exp,
    outer: Items<Pending>,
) -> Result<Reading, AllocError>
    ensures next { IfOk result (λ reading. view_reading reading ≡ Wanted (Opens (Arguments (view_callee callee) (map view_exp arguments ++ view_exp value ∷ [])) ∷ view_open outer)) }
{
    match with_value(arguments, value) {
        Ok(arguments) => open_more(outer, Opener::Arguments(callee, arguments)),
        Err(error) => {
            discard(callee);
            discard(outer);
            Err(error)
        }
    }
}
