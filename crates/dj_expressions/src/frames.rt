//! What is open around an expression that is read, and what closes it (JLS 15).

ghost use Rattle.std.specs.Prelude.{◌≡◌, ◌++◌, ◌∷◌, [], false, IfOk, MatchResult, None, Some, if◌then◌else◌, map, option_map, reverse};
ghost use Rattle.dj_names.specs.Types.{view_type};
ghost use Rattle.dj_syntax.specs.Trees.{Assign, Binary, Cast, Choice, Negative, NewArray, Not, exps_of, view_exp};
ghost use Rattle.dj_grammar.specs.Frames.{Opens, called, collapsed, creating, is_creation, joined, opened, signed, testing, type_tested, waiting};
ghost use Rattle.dj_expressions.specs.declared.frames.Pending.TheVariants as pendings;
ghost use Rattle.dj_grammar.specs.Brackets.{enclosing, is_parenthesis};
ghost use Rattle.dj_grammar.specs.Steps.{labels_in, starting};
ghost use Rattle.dj_tokens.specs.Dotted.{type_of_name};
ghost use Rattle.dj_tokens.specs.DottedViews.{view_name};
ghost use Rattle.dj_expressions.specs.Views.{view_callee, view_joint, view_open, view_opener, view_standing};

use dj_names::{Boxed, ClassName, Items, JType, Units};
use dj_syntax::{Exp, Op, Var, boxed_list};
use dj_tokens::{DottedName, negated_int, negated_long};
use std::alloc::{AllocError, Global};

/// What is called: a method of an object, of a class, or above; a class, for a new object; a
/// constructor, of this class or else of the one above; the helper.
#[derive(Drop)]
pub enum Callee {
    OfObject(Boxed<Exp>, Units),
    OfClass(ClassName, Units),
    Above(Option<ClassName>, Units),
    Creation(ClassName),
    Own(bool),
    Helper,
}

/// What waits for an operand behind it: a minus sign before a number, another one, `!`, a name in
/// parentheses, another type in parentheses, an operator with its left operand, `instanceof`, the
/// test of a choice, test and first part, an assignment, `new`.
#[derive(Drop)]
pub enum Joint {
    Sign,
    Negated,
    Inverted,
    Enclosed(DottedName),
    Converted(JType),
    LeftOf(Exp, Op),
    TypeTested(Exp),
    Asked(Exp),
    Answered(Exp, Exp),
    Assigned(Var),
    Created,
}

/// What opens a place that something closes: a parenthesis; a bracket behind a value, a name or a
/// type; arguments, with those before; a size of a new array, with those before and the pairs of
/// brackets; the beginning of a statement, with its labels, the innermost last, what it stores to,
/// and what it declares.
#[derive(Drop)]
pub enum Opener {
    Parenthesis,
    Bracket(Exp),
    NameBracket(DottedName),
    TypeBracket(JType),
    Arguments(Callee, Items<Exp>),
    Size(JType, Items<Exp>, u32),
    Start(Items<u32>),
    Stored(Items<u32>, Exp),
    Initial(Items<u32>, JType, Var),
}

/// What is open around an expression.
#[derive(Drop)]
pub enum Pending {
    Joins(Joint),
    Opens(Opener),
}

impl Pending {
    /// What waits, or what opens.
    pub fn into_parts(self) -> Result<Joint, Opener>
        ensures parts { MatchResult result (λ joint. self ≡ pendings.Joins joint) (λ opener. self ≡ pendings.Opens opener) }
    {
        match self {
            Pending::Joins(joint) => Ok(joint),
            Pending::Opens(opener) => Err(opener),
        }
    }
}

/// Takes away what was opened last, where nothing waits in it.
pub fn pop_opener(pending: &mut Items<Pending>) -> Option<Opener>
    ensures opened { option_map (λ opener. (view_opener opener, view_open pending.new)) result ≡ opened (view_open pending.old) }
{
    match pending.pop() {
        Some(frame) => frame.into_parts().err(),
        None => None,
    }
}

/// Takes away what waits last.
pub fn pop_joint(pending: &mut Items<Pending>) -> Option<Joint>
    ensures waiting { option_map (λ joint. (view_joint joint, view_open pending.new)) result ≡ waiting (view_open pending.old) }
{
    match pending.pop() {
        Some(frame) => frame.into_parts().ok(),
        None => None,
    }
}

/// A value, and what is open around it, the innermost last.
#[derive(Drop)]
pub struct Standing {
    pub value: Exp,
    pub pending: Items<Pending>,
}

/// A minus sign before a value: a literal with it is one literal.
fn signed(alloc: Global, value: Exp) -> Result<Exp, AllocError>
    ensures signed { IfOk result (λ made. view_exp made ≡ signed (view_exp value)) }
{
    match value {
        Exp::Int(number) => Ok(Exp::Int(negated_int(number))),
        Exp::Long(number) => Ok(Exp::Long(negated_long(number))),
        _ => minus_before(alloc, value),
    }
}

/// A minus sign before a value, whatever it is.
fn minus_before(alloc: Global, value: Exp) -> Result<Exp, AllocError>
    ensures minus { IfOk result (λ made. view_exp made ≡ Negative (view_exp value)) }
{
    let operand = Boxed::new(alloc, value)?;
    Ok(Exp::Negative(operand))
}

/// `!` before a value.
fn not_before(alloc: Global, value: Exp) -> Result<Exp, AllocError>
    ensures inverted { IfOk result (λ made. view_exp made ≡ Not (view_exp value)) }
{
    let operand = Boxed::new(alloc, value)?;
    Ok(Exp::Not(operand))
}

/// A value converted to a type.
fn converted(alloc: Global, kind: JType, value: Exp) -> Result<Exp, AllocError>
    ensures converted { IfOk result (λ made. view_exp made ≡ Cast (view_type kind) (view_exp value)) }
{
    let operand = Boxed::new(alloc, value)?;
    Ok(Exp::Cast(kind, operand))
}

/// A value converted to the type that a name names.
fn converted_by(alloc: Global, name: DottedName, value: Exp) -> Result<Exp, AllocError>
    ensures converted { IfOk result (λ made. view_exp made ≡ Cast (type_of_name (view_name name)) (view_exp value)) }
{
    match name.into_type(alloc) {
        Ok(kind) => converted(alloc, kind, value),
        Err(error) => {
            discard(value);
            Err(error)
        }
    }
}

/// An operator between two operands.
fn between(alloc: Global, operator: Op, left: Exp, right: Exp) -> Result<Exp, AllocError>
    ensures between { IfOk result (λ made. view_exp made ≡ Binary operator (view_exp left) (view_exp right)) }
{
    match Boxed::new(alloc, left) {
        Ok(left) => {
            let right = Boxed::new(alloc, right)?;
            Ok(Exp::Binary(operator, left, right))
        }
        Err(error) => {
            discard(right);
            Err(error)
        }
    }
}

/// A value assigned to a variable.
fn assigned_to(alloc: Global, variable: Var, value: Exp) -> Result<Exp, AllocError>
    ensures assigned { IfOk result (λ made. view_exp made ≡ Assign variable (view_exp value)) }
{
    let value = Boxed::new(alloc, value)?;
    Ok(Exp::Assign(variable, value))
}

/// A value behind what waits for it.
pub fn joined(alloc: Global, joint: Joint, value: Exp) -> Result<Exp, AllocError>
    ensures joined { IfOk result (λ made. view_exp made ≡ joined (view_joint joint) (view_exp value)) }
{
    match joint {
        Joint::Sign => signed(alloc, value),
        Joint::Negated => minus_before(alloc, value),
        Joint::Inverted => not_before(alloc, value),
        Joint::Enclosed(name) => converted_by(alloc, name, value),
        Joint::Converted(kind) => converted(alloc, kind, value),
        Joint::LeftOf(left, operator) => between(alloc, operator, left, value),
        Joint::Answered(test, first) => choice(alloc, test, first, value),
        Joint::Assigned(variable) => assigned_to(alloc, variable, value),
        Joint::TypeTested(_) | Joint::Asked(_) | Joint::Created => {
            discard(joint);
            Ok(value)
        }
    }
}

/// A choice of these parts.
fn choice(alloc: Global, test: Exp, first: Exp, second: Exp) -> Result<Exp, AllocError>
    ensures choice { IfOk result (λ made. view_exp made ≡ Choice (view_exp test) (view_exp first) (view_exp second)) }
{
    match Boxed::new(alloc, test) {
        Ok(test) => answered(alloc, test, first, second),
        Err(error) => {
            discard(first);
            discard(second);
            Err(error)
        }
    }
}

/// The same, whose test is kept already.
fn answered(alloc: Global, test: Boxed<Exp>, first: Exp, second: Exp) -> Result<Exp, AllocError>
    ensures choice { IfOk result (λ made. view_exp made ≡ Choice (view_exp test) (view_exp first) (view_exp second)) }
{
    match Boxed::new(alloc, first) {
        Ok(first) => {
            let second = Boxed::new(alloc, second)?;
            Ok(Exp::Choice(test, first, second))
        }
        Err(error) => {
            discard(second);
            Err(error)
        }
    }
}

impl Standing {
    /// The value behind all that waits for it, and what is open around it then.
    pub fn collapsed(self, alloc: Global) -> Result<Standing, AllocError>
        ensures collapsed { IfOk result (λ ended. view_standing ended ≡ collapsed (view_exp self.value) (view_open self.pending)) }
    {
        let Standing {
            mut value,
            mut pending,
        } = self;
        while let Some(frame) = pending.pop() {
            match frame.into_parts() {
                Ok(joint) => value = joined(alloc, joint, value)?,
                Err(opener) => return opened_again(value, opener, pending),
            }
        }
        Ok(Standing { value, pending })
    }
}

/// A value in what was opened, which is put back.
pub fn opened_again(
    value: Exp,
    opener: Opener,
    mut pending: Items<Pending>,
) -> Result<Standing, AllocError>
    ensures opened { IfOk result (λ stands. view_standing stands ≡ (view_exp value, Opens (view_opener opener) ∷ view_open pending)) }
{
    match pending.push(Pending::Opens(opener)) {
        Ok(()) => Ok(Standing { value, pending }),
        Err(error) => {
            discard(value);
            Err(error)
        }
    }
}

/// A call; constructors and the helper are called by statements alone.
pub fn called(alloc: Global, callee: Callee, arguments: Items<Exp>) -> Result<Exp, AllocError>
    ensures called { IfOk result (λ made. view_exp made ≡ called (view_callee callee) (exps_of (map view_exp arguments))) }
{
    match boxed_arguments(alloc, arguments) {
        Ok(arguments) => called_with_all(alloc, callee, arguments),
        Err(error) => {
            discard(callee);
            Err(error)
        }
    }
}

/// Arguments in a box, in no more room than they take: one that is alone has a list with room for no
/// other.
fn boxed_arguments(alloc: Global, arguments: Items<Exp>) -> Result<Boxed<Items<Exp>>, AllocError>
    ensures same { IfOk result (λ boxed. boxed ≡ arguments) }
{
    if arguments.len() > 1 {
        boxed_list(alloc, arguments)
    } else {
        Ok(Boxed::new(alloc, arguments)?)
    }
}

/// The same, whose arguments are kept already.
fn called_with_all(
    alloc: Global,
    callee: Callee,
    arguments: Boxed<Items<Exp>>,
) -> Result<Exp, AllocError>
    ensures called { IfOk result (λ made. view_exp made ≡ called (view_callee callee) (exps_of (map view_exp arguments))) }
{
    match callee {
        Callee::OfObject(object, name) => Ok(Exp::Call(object, name, arguments)),
        Callee::OfClass(class, name) => Ok(Exp::StaticCall(class, name, arguments)),
        Callee::Above(above, name) => Ok(Exp::SuperCall(above, name, arguments)),
        Callee::Creation(class) => Ok(Exp::New(class, arguments)),
        Callee::Own(_) | Callee::Helper => Ok(Exp::Null),
    }
}

/// A new array of these sizes.
pub fn new_array(
    alloc: Global,
    kind: JType,
    sizes: Items<Exp>,
    more: u32,
) -> Result<Exp, AllocError>
    ensures made { IfOk result (λ made. view_exp made ≡ NewArray (view_type kind) (exps_of (map view_exp sizes)) more) }
{
    let sizes = boxed_list(alloc, sizes)?;
    Ok(Exp::NewArray(kind, sizes, more))
}

/// The operand of an `instanceof`, or what else waits.
fn type_tested(joint: Joint) -> Result<Exp, Joint>
    ensures tested { MatchResult result (λ operand. type_tested (view_joint joint) ≡ Some (view_exp operand)) (λ other. (other ≡ joint) × (type_tested (view_joint joint) ≡ None)) }
{
    match joint {
        Joint::TypeTested(operand) => Ok(operand),
        Joint::Sign
        | Joint::Negated
        | Joint::Inverted
        | Joint::Enclosed(_)
        | Joint::Converted(_)
        | Joint::LeftOf(_, _)
        | Joint::Asked(_)
        | Joint::Answered(_, _)
        | Joint::Assigned(_)
        | Joint::Created => Err(joint),
    }
}

/// Whether it is a `new`.
fn is_creation(joint: &Joint) -> bool
    ensures creation { result ≡ is_creation (view_joint joint.now) }
{
    match joint {
        Joint::Created => true,
        Joint::Sign
        | Joint::Negated
        | Joint::Inverted
        | Joint::Enclosed(_)
        | Joint::Converted(_)
        | Joint::LeftOf(_, _)
        | Joint::TypeTested(_)
        | Joint::Asked(_)
        | Joint::Answered(_, _)
        | Joint::Assigned(_) => false,
    }
}

/// Takes a `new` away that waits for what it makes, and tells whether there was one.
pub fn take_creation(pending: &mut Items<Pending>) -> Result<bool, AllocError>
    ensures taken { IfOk result (λ taken. creating (view_open pending.old) ≡ (if taken then Some (view_open pending.new) else None)) }
    ensures kept { IfOk result (λ taken. taken ≡ false → pending.new ≡ pending.old) }
{
    let Some(frame) = pending.pop() else {
        return Ok(false);
    };
    match frame.into_parts() {
        Ok(joint) => {
            let taken = put_back_unless(is_creation(&joint), pending, Pending::Joins(joint))?;
            Ok(taken)
        }
        Err(opener) => {
            pending.push(Pending::Opens(opener))?;
            Ok(false)
        }
    }
}

/// Puts back what was taken away, unless it stays away, and tells which.
fn put_back_unless(
    away: bool,
    pending: &mut Items<Pending>,
    frame: Pending,
) -> Result<bool, AllocError>
    ensures answer { IfOk result (λ answer. answer ≡ away) }
    ensures put { IfOk result (λ answer. pending.new ≡ (if away then pending.old else pending.old ++ frame ∷ [])) }
{
    if away {
        discard(frame);
    } else {
        pending.push(frame)?;
    }
    Ok(away)
}

/// Whether it is a parenthesis.
fn is_parenthesis(opener: &Opener) -> bool
    ensures parenthesis { result ≡ is_parenthesis (view_opener opener.now) }
{
    match opener {
        Opener::Parenthesis => true,
        Opener::Bracket(_)
        | Opener::NameBracket(_)
        | Opener::TypeBracket(_)
        | Opener::Arguments(_, _)
        | Opener::Size(_, _, _)
        | Opener::Start(_)
        | Opener::Stored(_, _)
        | Opener::Initial(_, _, _) => false,
    }
}

/// Takes a parenthesis away that was just opened, and tells whether there was one.
pub fn take_parenthesis(pending: &mut Items<Pending>) -> Result<bool, AllocError>
    ensures taken { IfOk result (λ taken. enclosing (view_open pending.old) ≡ (if taken then Some (view_open pending.new) else None)) }
    ensures kept { IfOk result (λ taken. taken ≡ false → pending.new ≡ pending.old) }
{
    let Some(frame) = pending.pop() else {
        return Ok(false);
    };
    match frame.into_parts() {
        Ok(joint) => {
            pending.push(Pending::Joins(joint))?;
            Ok(false)
        }
        Err(opener) => {
            let taken = put_back_unless(is_parenthesis(&opener), pending, Pending::Opens(opener))?;
            Ok(taken)
        }
    }
}

/// Takes the operand of an `instanceof` away that waits for its type, where one does.
pub fn take_test(pending: &mut Items<Pending>) -> Result<Option<Exp>, AllocError>
    ensures taken { IfOk result (λ taken. testing (view_open pending.old) ≡ option_map (λ operand. (view_exp operand, view_open pending.new)) taken) }
    ensures kept { IfOk result (λ taken. taken ≡ None → pending.new ≡ pending.old) }
{
    let Some(frame) = pending.pop() else {
        return Ok(None);
    };
    match frame.into_parts() {
        Ok(joint) => match type_tested(joint) {
            Ok(operand) => Ok(Some(operand)),
            Err(joint) => {
                pending.push(Pending::Joins(joint))?;
                Ok(None)
            }
        },
        Err(opener) => {
            pending.push(Pending::Opens(opener))?;
            Ok(None)
        }
    }
}

/// Takes the labels of a statement away that begins here, where one does.
pub fn take_start(pending: &mut Items<Pending>) -> Result<Option<Items<u32>>, AllocError>
    ensures taken { IfOk result (λ taken. starting (view_open pending.old) ≡ option_map (λ labels. (reverse labels, view_open pending.new)) taken) }
    ensures kept { IfOk result (λ taken. taken ≡ None → pending.new ≡ pending.old) }
{
    let Some(frame) = pending.pop() else {
        return Ok(None);
    };
    match frame.into_parts() {
        Ok(joint) => {
            pending.push(Pending::Joins(joint))?;
            Ok(None)
        }
        Err(opener) => match labels_in(opener) {
            Ok(labels) => Ok(Some(labels)),
            Err(opener) => {
                pending.push(Pending::Opens(opener))?;
                Ok(None)
            }
        },
    }
}

/// The labels of a statement that begins, or what else opens.
fn labels_in(opener: Opener) -> Result<Items<u32>, Opener>
    ensures labels { MatchResult result (λ labels. labels_in (view_opener opener) ≡ Some (reverse labels)) (λ other. (other ≡ opener) × (labels_in (view_opener opener) ≡ None)) }
{
    match opener {
        Opener::Start(labels) => Ok(labels),
        Opener::Parenthesis
        | Opener::Bracket(_)
        | Opener::NameBracket(_)
        | Opener::TypeBracket(_)
        | Opener::Arguments(_, _)
        | Opener::Size(_, _, _)
        | Opener::Stored(_, _)
        | Opener::Initial(_, _, _) => Err(opener),
    }
}

/// Lets a value go.
pub fn discard<T: Drop>(_value: T) {}
