//! A word more of an expression, read in place (JLS 15).

ghost use Rattle.std.specs.Prelude.{◌≡◌, ◌∷◌, List, OnOk, Some, map};
ghost use Rattle.dj_syntax.specs.Trees.{exps_of, view_exp};
ghost use Rattle.dj_grammar.specs.Brackets.{close_ended, close_parenthesis, next, open_parenthesis};
ghost use Rattle.dj_grammar.specs.Frames as plain;
ghost use Rattle.dj_grammar.specs.Frames.{Joins, LeftOf, Sign, called, collapsed};
ghost use Rattle.dj_grammar.specs.Readings.{Behind, Named, Wanted, wanted};
ghost use Rattle.dj_grammar.specs.Steps.{dot, name, operate, read_token, stand};
ghost use Rattle.dj_tokens.specs.Dotted as dotted;
ghost use Rattle.dj_tokens.specs.Dotted.{begun};
ghost use Rattle.dj_expressions.specs.Views.{view_callee, view_open, view_reading};

use crate::brackets::close_around;
use crate::frames::{Callee, Joint, Opener, Pending, called, discard};
use crate::readings::Reading;
use dj_names::Items;
use dj_syntax::{Exp, Op};
use dj_tokens::{DottedName, KnownNames, Token, literal_of};
use std::alloc::{AllocError, Global};
use std::mem;

impl Reading {
    /// A word more is read, given what it is. The words that come most are read by a function each,
    /// since one that reads any word makes room for what each of them needs.
    pub fn pass(
        &mut self,
        alloc: Global,
        names: &mut KnownNames,
        token: Token,
        word: &[u8],
    ) -> Result<(), AllocError>
        ensures passed { OnOk result (view_reading self.new ≡ read_token token word.now (view_reading self.old)) }
    {
        match token {
            Token::Open => self.pass_open(alloc, names),
            Token::Close => self.pass_close(alloc),
            Token::Comma => self.pass_comma(alloc),
            Token::Dot => self.pass_dot(alloc),
            Token::Operator(operator) => self.pass_operator(alloc, operator),
            Token::Number => self.pass_number(literal_of(word)),
            Token::Name => self.pass_name(alloc, names, word),
            Token::OpenBracket
            | Token::CloseBracket
            | Token::Colon
            | Token::Question
            | Token::Semicolon
            | Token::OpenBrace
            | Token::CloseBrace
            | Token::Assigns
            | Token::Bang
            | Token::Text
            | Token::True
            | Token::False
            | Token::Null
            | Token::This
            | Token::New
            | Token::InstanceOf
            | Token::Class
            | Token::Return
            | Token::If
            | Token::Else
            | Token::While
            | Token::Do
            | Token::For
            | Token::Switch
            | Token::Case
            | Token::Default
            | Token::Break
            | Token::Continue
            | Token::Throw
            | Token::Try
            | Token::Catch
            | Token::Finally
            | Token::Synchronized => self.pass_any(alloc, names, token, word),
        }
    }

    /// Any word.
    fn pass_any(
        &mut self,
        alloc: Global,
        names: &mut KnownNames,
        token: Token,
        word: &[u8],
    ) -> Result<(), AllocError>
        ensures passed { OnOk result (view_reading self.new ≡ read_token token word.now (view_reading self.old)) }
    {
        let next = self.take().read_token(alloc, names, token, word)?;
        self.put(next);
        Ok(())
    }

    /// A parenthesis opens.
    fn pass_open(&mut self, alloc: Global, names: &mut KnownNames) -> Result<(), AllocError>
        ensures opened { OnOk result (view_reading self.new ≡ open_parenthesis (view_reading self.old)) }
    {
        match self {
            Reading::Wanted(pending) => {
                pending.push(Pending::Opens(Opener::Parenthesis))?;
                Ok(())
            }
            _ => self.pass_arguments(alloc, names),
        }
    }

    /// A parenthesis opens behind what may be called.
    fn pass_arguments(&mut self, alloc: Global, names: &mut KnownNames) -> Result<(), AllocError>
        ensures opened { OnOk result (view_reading self.new ≡ open_parenthesis (view_reading self.old)) }
    {
        let next = self.take().open(alloc, names)?;
        self.put(next);
        Ok(())
    }

    /// A parenthesis closes.
    fn pass_close(&mut self, alloc: Global) -> Result<(), AllocError>
        ensures closed { OnOk result (view_reading self.new ≡ close_parenthesis (view_reading self.old)) }
    {
        let before = self.take();
        match before {
            Reading::Stands(value, pending) => self.close_behind(alloc, value, pending),
            Reading::Called(callee, arguments, pending) => {
                self.close_behind_call(alloc, callee, arguments, pending)
            }
            _ => self.pass_other_close(alloc, before),
        }
    }

    /// A parenthesis closes behind a value.
    fn close_behind(
        &mut self,
        alloc: Global,
        value: Exp,
        pending: Items<Pending>,
    ) -> Result<(), AllocError>
        ensures closed { OnOk result (view_reading self.new ≡ close_ended (Some (collapsed (view_exp value) (view_open pending)))) }
    {
        let next = close_around(alloc, value, pending)?;
        self.put(next);
        Ok(())
    }

    /// A parenthesis closes behind a call.
    fn close_behind_call(
        &mut self,
        alloc: Global,
        callee: Callee,
        arguments: Items<Exp>,
        pending: Items<Pending>,
    ) -> Result<(), AllocError>
        ensures closed { OnOk result (view_reading self.new ≡ close_ended (Some (collapsed (called (view_callee callee) (exps_of (map view_exp arguments))) (view_open pending)))) }
    {
        match called(alloc, callee, arguments) {
            Ok(value) => self.close_behind(alloc, value, pending),
            Err(error) => {
                discard(pending);
                Err(error)
            }
        }
    }

    /// A parenthesis closes behind another word than the last one of a value or a call.
    fn pass_other_close(&mut self, alloc: Global, before: Reading) -> Result<(), AllocError>
        ensures closed { OnOk result (view_reading self.new ≡ close_parenthesis (view_reading before)) }
    {
        let next = before.close(alloc)?;
        self.put(next);
        Ok(())
    }

    /// A comma.
    fn pass_comma(&mut self, alloc: Global) -> Result<(), AllocError>
        ensures next { OnOk result (view_reading self.new ≡ next (view_reading self.old)) }
    {
        let next = self.take().next(alloc)?;
        self.put(next);
        Ok(())
    }

    /// A dot.
    fn pass_dot(&mut self, alloc: Global) -> Result<(), AllocError>
        ensures dot { OnOk result (view_reading self.new ≡ dot (view_reading self.old)) }
    {
        let before = self.take();
        match before {
            Reading::Named(name, pending) => {
                self.put(Reading::Behind(name, pending));
                Ok(())
            }
            _ => self.pass_selection(alloc, before),
        }
    }

    /// A dot behind what may have been a value.
    fn pass_selection(&mut self, alloc: Global, before: Reading) -> Result<(), AllocError>
        ensures dot { OnOk result (view_reading self.new ≡ dot (view_reading before)) }
    {
        let next = before.dot(alloc)?;
        self.put(next);
        Ok(())
    }

    /// An operator.
    fn pass_operator(&mut self, alloc: Global, operator: Op) -> Result<(), AllocError>
        ensures operates { OnOk result (view_reading self.new ≡ operate operator (view_reading self.old)) }
    {
        let before = self.take();
        match before {
            Reading::Stands(value, pending) => self.wait_behind(value, operator, pending),
            _ => self.pass_other_operator(alloc, operator, before),
        }
    }

    /// An operator waits for its right operand.
    fn wait_behind(
        &mut self,
        left: Exp,
        operator: Op,
        mut pending: Items<Pending>,
    ) -> Result<(), AllocError>
        ensures waits { OnOk result (view_reading self.new ≡ Wanted (Joins (LeftOf (view_exp left) operator) ∷ view_open pending)) }
    {
        pending.push(Pending::Joins(Joint::LeftOf(left, operator)))?;
        self.put(Reading::Wanted(pending));
        Ok(())
    }

    /// An operator behind what may be a value.
    fn pass_other_operator(
        &mut self,
        alloc: Global,
        operator: Op,
        before: Reading,
    ) -> Result<(), AllocError>
        ensures operates { OnOk result (view_reading self.new ≡ operate operator (view_reading before)) }
    {
        let next = before.operate(alloc, operator)?;
        self.put(next);
        Ok(())
    }

    /// A number.
    fn pass_number(&mut self, number: Exp) -> Result<(), AllocError>
        ensures stands { OnOk result (view_reading self.new ≡ stand (view_exp number) (wanted Sign (view_reading self.old))) }
    {
        let before = self.take();
        match before {
            Reading::Wanted(pending) => {
                self.put(Reading::Stands(number, pending));
                Ok(())
            }
            _ => self.pass_signed(number, before),
        }
    }

    /// A number, which a minus sign may stand before.
    fn pass_signed(&mut self, number: Exp, before: Reading) -> Result<(), AllocError>
        ensures stands { OnOk result (view_reading self.new ≡ stand (view_exp number) (wanted Sign (view_reading before))) }
    {
        let next = before.stand(number, true)?;
        self.put(next);
        Ok(())
    }

    /// A name. One behind a dot goes to the name before it.
    fn pass_name(
        &mut self,
        alloc: Global,
        names: &mut KnownNames,
        word: &[u8],
    ) -> Result<(), AllocError>
        ensures named { OnOk result (view_reading self.new ≡ name word.now (view_reading self.old)) }
    {
        match self {
            Reading::Behind(name, _pending) => {
                name.extend(alloc, names, word)?;
                self.end_dot();
                Ok(())
            }
            _ => self.pass_first_name(alloc, names, word),
        }
    }

    /// A name is read to its end, for now, where a dot stood behind it.
    fn end_dot(&mut self)
        ensures ended { (name : dotted.DottedName) (pending : List plain.Pending) → view_reading self.old ≡ Behind name pending → view_reading self.new ≡ Named name pending }
    {
        let before = self.take();
        match before {
            Reading::Behind(name, pending) => self.put(Reading::Named(name, pending)),
            _ => discard(before),
        }
    }

    /// A name that follows no other and a dot.
    fn pass_first_name(
        &mut self,
        alloc: Global,
        names: &mut KnownNames,
        word: &[u8],
    ) -> Result<(), AllocError>
        ensures named { OnOk result (view_reading self.new ≡ name word.now (view_reading self.old)) }
    {
        let before = self.take();
        match before {
            Reading::Wanted(pending) => self.begin_name(alloc, names, word, pending),
            _ => self.pass_other_name(alloc, names, word, before),
        }
    }

    /// A name begins.
    fn begin_name(
        &mut self,
        alloc: Global,
        names: &mut KnownNames,
        word: &[u8],
        pending: Items<Pending>,
    ) -> Result<(), AllocError>
        ensures begun { OnOk result (view_reading self.new ≡ Named (begun word.now) (view_open pending)) }
    {
        let name = DottedName::begun(alloc, names, word)?;
        self.put(Reading::Named(name, pending));
        Ok(())
    }

    /// A name where no operand is wanted, or one behind a minus sign.
    fn pass_other_name(
        &mut self,
        alloc: Global,
        names: &mut KnownNames,
        word: &[u8],
        before: Reading,
    ) -> Result<(), AllocError>
        ensures named { OnOk result (view_reading self.new ≡ name word.now (view_reading before)) }
    {
        let next = before.name(alloc, names, word)?;
        self.put(next);
        Ok(())
    }

    /// Takes away how far an expression is read.
    fn take(&mut self) -> Reading
        ensures taken { result ≡ self.old }
    {
        mem::replace(self, Reading::Lost)
    }

    /// Puts how far an expression is read in the place of how far it was: nothing is let go where that
    /// was taken away.
    fn put(&mut self, next: Reading)
        ensures put { self.new ≡ next }
    {
        match mem::replace(self, next) {
            Reading::Lost => {}
            before => discard(before),
        }
    }
}
