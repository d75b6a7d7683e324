//! Expressions read a word at a time (JLS 15). What no expression has is read somehow, or lost, since
//! the text of what was read is compared afterwards.

ghost use Rattle.std.specs.Prelude.{◌≡◌, ◌∷◌, if◌then◌else◌, map, reverse, IfOk, Some, option_map};
ghost use Rattle.dj_names.specs.Types.{view_type};
ghost use Rattle.dj_syntax.specs.Trees.{Field, Text, exps_of, view_exp};
ghost use Rattle.dj_grammar.specs.Frames.{Asked, Joins, LeftOf, Negated, Opens, Sign, Start, TypeTested, called, waiting};
ghost use Rattle.dj_tokens.specs.Dotted.{begun, extended, type_of_name, value_of};
ghost use Rattle.dj_tokens.specs.Literals.{unquoted};
ghost use Rattle.dj_grammar.specs.Readings.{Declared, Named, Selecting, Stands, Wanted, standing, wanted};
ghost use Rattle.dj_grammar.specs.Steps.{answer, answer_joint, answer_test, asked, assign, assign_value, assign_variable, at_joint, assigns, class_literal, colon, dot, initialise, join, minus_or, name, operate, read_token, read_word, select_joint, stand, starting, variable_in_value, wait};
ghost use Rattle.dj_tokens.specs.DottedViews.{view_name};
ghost use Rattle.dj_expressions.specs.Views.{view_callee, view_joint, view_open, view_reading, view_standing};

use crate::brackets::{open_more, wait_more};
use crate::frames::{
    Callee, Joint, Opener, Pending, Standing, called, discard, pop_joint, take_start,
};
use crate::readings::Reading;
use dj_names::{Boxed, Items, JType};
use dj_syntax::{Exp, Op, Var};
use dj_tokens::{DottedName, KnownNames, Token, literal_of, token_of, unquoted, variable_of};
use std::alloc::{AllocError, Global};

impl Reading {
    /// A word more is read.
    pub fn read_word(
        self,
        alloc: Global,
        names: &mut KnownNames,
        word: &[u8],
    ) -> Result<Reading, AllocError>
        ensures read { IfOk result (λ reading. view_reading reading ≡ read_word (view_reading self) word.now) }
    {
        let reading = self.read_token(alloc, names, token_of(word), word)?;
        Ok(reading)
    }

    /// A word more is read, given what it is.
    pub fn read_token(
        self,
        alloc: Global,
        names: &mut KnownNames,
        token: Token,
        word: &[u8],
    ) -> Result<Reading, AllocError>
        ensures read { IfOk result (λ reading. view_reading reading ≡ read_token token word.now (view_reading self)) }
    {
        match token {
            Token::Open => self.open(alloc, names),
            Token::Close => self.close(alloc),
            Token::OpenBracket => self.open_bracket(alloc),
            Token::CloseBracket => self.close_bracket(alloc),
            Token::Comma => self.next(alloc),
            Token::Dot => self.dot(alloc),
            Token::Colon => self.colon(alloc),
            Token::Question => self.ask(alloc),
            Token::Assigns => self.assigns(alloc),
            Token::Bang => self.wait(Joint::Inverted),
            Token::Operator(operator) => self.operate(alloc, operator),
            Token::Number => self.stand(literal_of(word), true),
            Token::Text => self.text(alloc, word),
            Token::True => self.stand(Exp::Bool(true), false),
            Token::False => self.stand(Exp::Bool(false), false),
            Token::Null => self.stand(Exp::Null, false),
            Token::This => self.stand(Exp::This, false),
            Token::New => self.wait(Joint::Created),
            Token::InstanceOf => self.test_type(alloc),
            Token::Class => self.class_literal(alloc),
            Token::Name => self.name(alloc, names, word),
            Token::Semicolon
            | Token::OpenBrace
            | Token::CloseBrace
            | Token::Return
            | Token::If
            | Token::Else
            | Token::While
            | Token::Do
            | Token::For
            | Token::Switch
            | Token::Case
            | Token::Default
            | Token::Break
            | Token::Continue
            | Token::Throw
            | Token::Try
            | Token::Catch
            | Token::Finally
            | Token::Synchronized => Ok(self.lost()),
        }
    }

    /// `!` or `new`.
    fn wait(self, joint: Joint) -> Result<Reading, AllocError>
        ensures waits { IfOk result (λ reading. view_reading reading ≡ wait (view_joint joint) (wanted Negated (view_reading self))) }
    {
        match self.wanted(false) {
            Ok(pending) => wait_in(pending, joint),
            Err(error) => {
                discard(joint);
                Err(error)
            }
        }
    }

    /// An operand, which may be a number.
    pub fn stand(self, value: Exp, number: bool) -> Result<Reading, AllocError>
        ensures stands { IfOk result (λ reading. view_reading reading ≡ stand (view_exp value) (wanted (if number then Sign else Negated) (view_reading self))) }
    {
        match self.wanted(number) {
            Ok(pending) => Ok(stand_in(pending, value)),
            Err(error) => {
                discard(value);
                Err(error)
            }
        }
    }

    /// A string literal.
    fn text(self, alloc: Global, word: &[u8]) -> Result<Reading, AllocError>
        ensures text { IfOk result (λ reading. view_reading reading ≡ stand (Text (unquoted word.now)) (wanted Negated (view_reading self))) }
    {
        let pending = self.wanted(false)?;
        let units = unquoted(alloc, word)?;
        Ok(stand_in(pending, Exp::Text(units)))
    }

    /// `instanceof` behind a value.
    fn test_type(self, alloc: Global) -> Result<Reading, AllocError>
        ensures tests { IfOk result (λ reading. view_reading reading ≡ join TypeTested (standing (view_reading self))) }
    {
        let stands = self.standing(alloc)?;
        let reading = test_standing(stands)?;
        Ok(reading)
    }

    /// `?` behind a value.
    fn ask(self, alloc: Global) -> Result<Reading, AllocError>
        ensures asks { IfOk result (λ reading. view_reading reading ≡ join Asked (standing (view_reading self))) }
    {
        let stands = self.standing(alloc)?;
        let reading = ask_standing(stands)?;
        Ok(reading)
    }

    /// An operator, or the bracket before the type of the helper.
    pub fn operate(self, alloc: Global, operator: Op) -> Result<Reading, AllocError>
        ensures operates { IfOk result (λ reading. view_reading reading ≡ operate operator (view_reading self)) }
    {
        match self {
            Reading::Wanted(pending) => Ok(minus_or(operator, pending)),
            Reading::Behind(_name, pending) => Ok(Reading::Helping(pending)),
            Reading::Helping(pending) => Ok(Reading::Helping(pending)),
            Reading::Named(_, _)
            | Reading::Typed(_, _)
            | Reading::Sized(_, _, _, _)
            | Reading::Called(_, _, _)
            | Reading::Stands(_, _) => self.join(alloc, operator),
            Reading::Negation(_)
            | Reading::Head(_)
            | Reading::Declared(_, _, _)
            | Reading::Selecting(_, _)
            | Reading::Lost => Ok(self.lost()),
        }
    }

    /// An operator behind a value.
    fn join(self, alloc: Global, operator: Op) -> Result<Reading, AllocError>
        ensures joins { IfOk result (λ reading. view_reading reading ≡ join (λ left. LeftOf left operator) (standing (view_reading self))) }
    {
        let stands = self.standing(alloc)?;
        let reading = join_standing(stands, operator)?;
        Ok(reading)
    }

    /// A dot.
    pub fn dot(self, alloc: Global) -> Result<Reading, AllocError>
        ensures dot { IfOk result (λ reading. view_reading reading ≡ dot (view_reading self)) }
    {
        match self {
            Reading::Wanted(pending) => select_wanted(alloc, pending),
            Reading::Named(name, pending) => Ok(Reading::Behind(name, pending)),
            Reading::Typed(_, _) | Reading::Helping(_) => Ok(self),
            Reading::Called(callee, arguments, pending) => {
                select_call(alloc, callee, arguments, pending)
            }
            Reading::Stands(value, pending) => Ok(Reading::Selecting(value, pending)),
            Reading::Negation(_)
            | Reading::Head(_)
            | Reading::Behind(_, _)
            | Reading::Sized(_, _, _, _)
            | Reading::Declared(_, _, _)
            | Reading::Selecting(_, _)
            | Reading::Lost => Ok(self.lost()),
        }
    }

    /// A name: of a variable, a class, a field or a method; behind a type that of a variable that is
    /// declared.
    pub fn name(
        self,
        alloc: Global,
        names: &mut KnownNames,
        word: &[u8],
    ) -> Result<Reading, AllocError>
        ensures named { IfOk result (λ reading. view_reading reading ≡ name word.now (view_reading self)) }
    {
        match self {
            Reading::Wanted(pending) => begin_name(alloc, names, word, pending),
            Reading::Negation(pending) => begin_name_behind_minus(alloc, names, word, pending),
            Reading::Named(before, pending) => declare(alloc, before, variable_of(word), pending),
            Reading::Behind(before, pending) => extend_name(alloc, names, before, word, pending),
            Reading::Typed(kind, pending) => {
                Ok(Reading::Declared(kind, variable_of(word), pending))
            }
            Reading::Selecting(object, pending) => field_of(alloc, names, object, word, pending),
            Reading::Helping(_) => Ok(self),
            Reading::Head(_)
            | Reading::Sized(_, _, _, _)
            | Reading::Called(_, _, _)
            | Reading::Declared(_, _, _)
            | Reading::Stands(_, _)
            | Reading::Lost => Ok(self.lost()),
        }
    }

    /// `class` behind a type and a dot.
    fn class_literal(self, alloc: Global) -> Result<Reading, AllocError>
        ensures literal { IfOk result (λ reading. view_reading reading ≡ class_literal (view_reading self)) }
    {
        match self {
            Reading::Behind(name, pending) => {
                let kind = name.into_type(alloc)?;
                Ok(Reading::Stands(Exp::ClassOf(kind), pending))
            }
            Reading::Typed(kind, pending) => Ok(Reading::Stands(Exp::ClassOf(kind), pending)),
            Reading::Wanted(_)
            | Reading::Negation(_)
            | Reading::Head(_)
            | Reading::Named(_, _)
            | Reading::Sized(_, _, _, _)
            | Reading::Called(_, _, _)
            | Reading::Declared(_, _, _)
            | Reading::Selecting(_, _)
            | Reading::Stands(_, _)
            | Reading::Helping(_)
            | Reading::Lost => Ok(self.lost()),
        }
    }

    /// A colon: behind a label, or behind the first part of a choice.
    fn colon(self, alloc: Global) -> Result<Reading, AllocError>
        ensures colon { IfOk result (λ reading. view_reading reading ≡ colon (view_reading self)) }
    {
        match self {
            Reading::Named(name, pending) => label_or_answer(alloc, name, pending),
            Reading::Called(_, _, _) | Reading::Stands(_, _) => answer_standing(alloc, self),
            Reading::Wanted(_)
            | Reading::Negation(_)
            | Reading::Head(_)
            | Reading::Behind(_, _)
            | Reading::Typed(_, _)
            | Reading::Sized(_, _, _, _)
            | Reading::Declared(_, _, _)
            | Reading::Selecting(_, _)
            | Reading::Helping(_)
            | Reading::Lost => Ok(self.lost()),
        }
    }

    /// `=`.
    fn assigns(self, alloc: Global) -> Result<Reading, AllocError>
        ensures assigns { IfOk result (λ reading. view_reading reading ≡ assigns (view_reading self)) }
    {
        match self {
            Reading::Named(_, _) | Reading::Stands(_, _) => assign_standing(alloc, self),
            Reading::Declared(kind, variable, pending) => initialise(kind, variable, pending),
            Reading::Wanted(_)
            | Reading::Negation(_)
            | Reading::Head(_)
            | Reading::Behind(_, _)
            | Reading::Typed(_, _)
            | Reading::Sized(_, _, _, _)
            | Reading::Called(_, _, _)
            | Reading::Selecting(_, _)
            | Reading::Helping(_)
            | Reading::Lost => Ok(self.lost()),
        }
    }
}

/// `instanceof` behind a value, where one stands.
fn test_standing(stands: Option<Standing>) -> Result<Reading, AllocError>
    ensures tests { IfOk result (λ reading. view_reading reading ≡ join TypeTested (option_map view_standing stands)) }
{
    match stands {
        None => Ok(Reading::Lost),
        Some(Standing { value, pending }) => wait_more(pending, Joint::TypeTested(value)),
    }
}

/// `?` behind a value, where one stands.
fn ask_standing(stands: Option<Standing>) -> Result<Reading, AllocError>
    ensures asks { IfOk result (λ reading. view_reading reading ≡ join Asked (option_map view_standing stands)) }
{
    match stands {
        None => Ok(Reading::Lost),
        Some(Standing { value, pending }) => wait_more(pending, Joint::Asked(value)),
    }
}

/// An operator behind a value, where one stands.
fn join_standing(stands: Option<Standing>, operator: Op) -> Result<Reading, AllocError>
    ensures joins { IfOk result (λ reading. view_reading reading ≡ join (λ left. LeftOf left operator) (option_map view_standing stands)) }
{
    match stands {
        None => Ok(Reading::Lost),
        Some(Standing { value, pending }) => wait_more(pending, Joint::LeftOf(value, operator)),
    }
}

/// `!` or `new`, where an operand is wanted.
fn wait_in(pending: Option<Items<Pending>>, joint: Joint) -> Result<Reading, AllocError>
    ensures waits { IfOk result (λ reading. view_reading reading ≡ wait (view_joint joint) (option_map view_open pending)) }
{
    match pending {
        None => {
            discard(joint);
            Ok(Reading::Lost)
        }
        Some(pending) => wait_more(pending, joint),
    }
}

/// An operand, where one is wanted.
fn stand_in(pending: Option<Items<Pending>>, value: Exp) -> Reading
    ensures stands { view_reading result ≡ stand (view_exp value) (option_map view_open pending) }
{
    match pending {
        None => {
            discard(value);
            Reading::Lost
        }
        Some(pending) => Reading::Stands(value, pending),
    }
}

/// A minus sign where an operand is wanted.
fn minus_or(operator: Op, pending: Items<Pending>) -> Reading
    ensures minus { view_reading result ≡ minus_or operator (view_open pending) }
{
    match operator {
        Op::Sub => Reading::Negation(pending),
        _ => Reading::Lost,
    }
}

/// A dot where an operand is wanted: a name in parentheses before it is a static field.
fn select_wanted(alloc: Global, mut pending: Items<Pending>) -> Result<Reading, AllocError>
    ensures selects { IfOk result (λ reading. view_reading reading ≡ at_joint select_joint (waiting (view_open pending))) }
{
    match pop_joint(&mut pending) {
        Some(joint) => select_joint(alloc, joint, pending),
        None => Ok(Reading::Lost),
    }
}

/// The same, of what waits.
fn select_joint(alloc: Global, joint: Joint, outer: Items<Pending>) -> Result<Reading, AllocError>
    ensures selects { IfOk result (λ reading. view_reading reading ≡ select_joint (view_joint joint) (view_open outer)) }
{
    match joint {
        Joint::Enclosed(name) => select_name(alloc, name, outer),
        Joint::Sign
        | Joint::Negated
        | Joint::Inverted
        | Joint::Converted(_)
        | Joint::LeftOf(_, _)
        | Joint::TypeTested(_)
        | Joint::Asked(_)
        | Joint::Answered(_, _)
        | Joint::Assigned(_)
        | Joint::Created => {
            discard(joint);
            Ok(Reading::Lost)
        }
    }
}

/// A dot behind a name in parentheses.
fn select_name(
    alloc: Global,
    name: DottedName,
    outer: Items<Pending>,
) -> Result<Reading, AllocError>
    ensures selects { IfOk result (λ reading. view_reading reading ≡ Selecting (value_of (view_name name)) (view_open outer)) }
{
    match name.into_value(alloc) {
        Ok(value) => Ok(Reading::Selecting(value, outer)),
        Err(error) => {
            discard(outer);
            Err(error)
        }
    }
}

/// A dot behind a call.
fn select_call(
    alloc: Global,
    callee: Callee,
    arguments: Items<Exp>,
    pending: Items<Pending>,
) -> Result<Reading, AllocError>
    ensures selects { IfOk result (λ reading. view_reading reading ≡ Selecting (called (view_callee callee) (exps_of (map view_exp arguments))) (view_open pending)) }
{
    match called(alloc, callee, arguments) {
        Ok(value) => Ok(Reading::Selecting(value, pending)),
        Err(error) => {
            discard(pending);
            Err(error)
        }
    }
}

/// A name begins.
fn begin_name(
    alloc: Global,
    names: &mut KnownNames,
    word: &[u8],
    pending: Items<Pending>,
) -> Result<Reading, AllocError>
    ensures begun { IfOk result (λ reading. view_reading reading ≡ Named (begun word.now) (view_open pending)) }
{
    match DottedName::begun(alloc, names, word) {
        Ok(name) => Ok(Reading::Named(name, pending)),
        Err(error) => {
            discard(pending);
            Err(error)
        }
    }
}

/// A name begins behind a minus sign.
fn begin_name_behind_minus(
    alloc: Global,
    names: &mut KnownNames,
    word: &[u8],
    mut pending: Items<Pending>,
) -> Result<Reading, AllocError>
    ensures begun { IfOk result (λ reading. view_reading reading ≡ Named (begun word.now) (Joins Negated ∷ view_open pending)) }
{
    match pending.push(Pending::Joins(Joint::Negated)) {
        Ok(()) => begin_name(alloc, names, word, pending),
        Err(error) => {
            discard(pending);
            Err(error)
        }
    }
}

/// The variable of a declaration stands behind a name, which is a type's.
fn declare(
    alloc: Global,
    name: DottedName,
    variable: Var,
    pending: Items<Pending>,
) -> Result<Reading, AllocError>
    ensures declared { IfOk result (λ reading. view_reading reading ≡ Declared (type_of_name (view_name name)) variable (view_open pending)) }
{
    match name.into_type(alloc) {
        Ok(kind) => Ok(Reading::Declared(kind, variable, pending)),
        Err(error) => {
            discard(pending);
            Err(error)
        }
    }
}

/// A name goes on.
fn extend_name(
    alloc: Global,
    names: &mut KnownNames,
    before: DottedName,
    word: &[u8],
    pending: Items<Pending>,
) -> Result<Reading, AllocError>
    ensures extended { IfOk result (λ reading. view_reading reading ≡ Named (extended (view_name before) word.now) (view_open pending)) }
{
    match before.extended(alloc, names, word) {
        Ok(name) => Ok(Reading::Named(name, pending)),
        Err(error) => {
            discard(pending);
            Err(error)
        }
    }
}

/// A field of an object stands.
fn field_of(
    alloc: Global,
    names: &mut KnownNames,
    object: Exp,
    word: &[u8],
    pending: Items<Pending>,
) -> Result<Reading, AllocError>
    ensures field { IfOk result (λ reading. view_reading reading ≡ Stands (Field (view_exp object) word.now) (view_open pending)) }
{
    match field(alloc, names, object, word) {
        Ok(value) => Ok(Reading::Stands(value, pending)),
        Err(error) => {
            discard(pending);
            Err(error)
        }
    }
}

/// A field of an object.
fn field(alloc: Global, names: &mut KnownNames, object: Exp, word: &[u8]) -> Result<Exp, AllocError>
    ensures field { IfOk result (λ made. view_exp made ≡ Field (view_exp object) word.now) }
{
    let object = Boxed::new(alloc, object)?;
    let name = names.word(alloc, word)?;
    Ok(Exp::Field(object, name))
}

/// A colon behind a name: a label where a statement begins, and else the colon of a choice.
fn label_or_answer(
    alloc: Global,
    name: DottedName,
    mut pending: Items<Pending>,
) -> Result<Reading, AllocError>
    ensures colon { IfOk result (λ reading. view_reading reading ≡ colon (Named (view_name name) (view_open pending))) }
{
    match take_start(&mut pending) {
        Ok(Some(labels)) => label(labels, name, pending),
        Ok(None) => answer_standing(alloc, Reading::Named(name, pending)),
        Err(error) => {
            discard(name);
            discard(pending);
            Err(error)
        }
    }
}

/// A label more of a statement that begins.
fn label(labels: Items<u32>, name: DottedName, outer: Items<Pending>) -> Result<Reading, AllocError>
    ensures labelled { IfOk result (λ reading. view_reading reading ≡ Wanted (Opens (Start (name.number ∷ reverse labels)) ∷ view_open outer)) }
{
    let number = name.number;
    discard(name);
    match with_label(labels, number) {
        Ok(labels) => open_more(outer, Opener::Start(labels)),
        Err(error) => {
            discard(outer);
            Err(error)
        }
    }
}

/// Labels with one more behind them.
fn with_label(mut labels: Items<u32>, label: u32) -> Result<Items<u32>, AllocError>
    ensures more { IfOk result (λ more. reverse more ≡ label ∷ reverse labels) }
{
    labels.push(label)?;
    Ok(labels)
}

/// A colon behind what may be a value.
fn answer_standing(alloc: Global, reading: Reading) -> Result<Reading, AllocError>
    ensures answers { IfOk result (λ answered. view_reading answered ≡ answer (standing (view_reading reading))) }
{
    let stands = reading.standing(alloc)?;
    let answered = answer(stands)?;
    Ok(answered)
}

/// A colon behind a value, where one stands.
fn answer(stands: Option<Standing>) -> Result<Reading, AllocError>
    ensures answers { IfOk result (λ reading. view_reading reading ≡ answer (option_map view_standing stands)) }
{
    match stands {
        None => Ok(Reading::Lost),
        Some(Standing { value, pending }) => answer_value(value, pending),
    }
}

/// A colon behind a value.
fn answer_value(value: Exp, mut pending: Items<Pending>) -> Result<Reading, AllocError>
    ensures answers { IfOk result (λ reading. view_reading reading ≡ at_joint (answer_joint (view_exp value)) (waiting (view_open pending))) }
{
    match pop_joint(&mut pending) {
        Some(joint) => answer_joint(value, joint, pending),
        None => {
            discard(value);
            Ok(Reading::Lost)
        }
    }
}

/// A colon behind a value in what waits.
fn answer_joint(first: Exp, joint: Joint, outer: Items<Pending>) -> Result<Reading, AllocError>
    ensures answers { IfOk result (λ reading. view_reading reading ≡ answer_joint (view_exp first) (view_joint joint) (view_open outer)) }
{
    let test = asked(joint);
    answer_test(first, outer, test)
}

/// The second part of a choice is wanted behind its test and first part.
fn answer_test(first: Exp, outer: Items<Pending>, test: Option<Exp>) -> Result<Reading, AllocError>
    ensures answers { IfOk result (λ reading. view_reading reading ≡ answer_test (view_exp first) (view_open outer) (option_map view_exp test)) }
{
    match test {
        Some(test) => wait_more(outer, Joint::Answered(test, first)),
        None => {
            discard(first);
            Ok(Reading::Lost)
        }
    }
}

/// The test of a choice whose first part is wanted.
fn asked(joint: Joint) -> Option<Exp>
    ensures asked { option_map view_exp result ≡ asked (view_joint joint) }
{
    match joint {
        Joint::Asked(test) => Some(test),
        Joint::Sign
        | Joint::Negated
        | Joint::Inverted
        | Joint::Enclosed(_)
        | Joint::Converted(_)
        | Joint::LeftOf(_, _)
        | Joint::TypeTested(_)
        | Joint::Answered(_, _)
        | Joint::Assigned(_)
        | Joint::Created => {
            discard(joint);
            None
        }
    }
}

/// The variable that a value is.
pub fn variable_in_value(value: &Exp) -> Option<Var>
    ensures variable { result ≡ variable_in_value (view_exp value.now) }
{
    match value {
        Exp::Var(variable) => Some(*variable),
        _ => None,
    }
}

/// `=` behind what may be a value.
fn assign_standing(alloc: Global, reading: Reading) -> Result<Reading, AllocError>
    ensures assigns { IfOk result (λ assigned. view_reading assigned ≡ assign (standing (view_reading reading))) }
{
    let stands = reading.standing(alloc)?;
    let assigned = assign(stands)?;
    Ok(assigned)
}

/// `=` behind a value, where one stands: a store where a statement begins, and else an assignment.
fn assign(stands: Option<Standing>) -> Result<Reading, AllocError>
    ensures assigns { IfOk result (λ reading. view_reading reading ≡ assign (option_map view_standing stands)) }
{
    match stands {
        None => Ok(Reading::Lost),
        Some(Standing { value, pending }) => assign_value(value, pending),
    }
}

/// `=` behind a value: a store where a statement begins, and else an assignment.
fn assign_value(value: Exp, mut pending: Items<Pending>) -> Result<Reading, AllocError>
    ensures assigns { IfOk result (λ reading. view_reading reading ≡ assign_value (view_exp value) (view_open pending) (starting (view_open pending))) }
{
    match take_start(&mut pending) {
        Ok(Some(labels)) => open_more(pending, Opener::Stored(labels, value)),
        Ok(None) => assign_variable(variable_of_value(value), pending),
        Err(error) => {
            discard(value);
            discard(pending);
            Err(error)
        }
    }
}

/// The variable that a value is, which is let go.
fn variable_of_value(value: Exp) -> Option<Var>
    ensures variable { result ≡ variable_in_value (view_exp value) }
{
    let variable = variable_in_value(&value);
    discard(value);
    variable
}

/// An assignment to a variable, where there is one.
fn assign_variable(variable: Option<Var>, pending: Items<Pending>) -> Result<Reading, AllocError>
    ensures assigns { IfOk result (λ reading. view_reading reading ≡ assign_variable variable (view_open pending)) }
{
    match variable {
        Some(variable) => wait_more(pending, Joint::Assigned(variable)),
        None => Ok(Reading::Lost),
    }
}

/// `=` behind the variable of a declaration.
fn initialise(
    kind: JType,
    variable: Var,
    mut pending: Items<Pending>,
) -> Result<Reading, AllocError>
    ensures initialises { IfOk result (λ reading. view_reading reading ≡ initialise (view_type kind) variable (starting (view_open pending))) }
{
    match take_start(&mut pending) {
        Ok(Some(labels)) => open_more(pending, Opener::Initial(labels, kind, variable)),
        Ok(None) => {
            discard(kind);
            Ok(Reading::Lost)
        }
        Err(error) => {
            discard(kind);
            discard(pending);
            Err(error)
        }
    }
}
