//! Statements read a word at a time (JLS 14). What no statement has is read somehow, since the text of
//! what was read is compared afterwards.

ghost use Rattle.std.specs.Prelude.{◌≡◌, IfOk, None, OnOk, map};
ghost use Rattle.dj_syntax.specs.Trees.{view_stm};
ghost use Rattle.dj_expressions.specs.Views.{view_reading};
ghost use Rattle.dj_statements.specs.OpenViews.{view_blocks, view_body, view_clause, view_listed, view_outer};
ghost use Rattle.dj_grammar.specs.Braces.{close_brace, open_brace};
ghost use Rattle.dj_grammar.specs.LastStatements.{case_of, catch_clause, else_of, finally_of, label_outer, last_goes_on};
ghost use Rattle.dj_grammar.specs.Open.{flushed};
ghost use Rattle.dj_grammar.specs.StatementEnds.{end_clause, value_in};
ghost use Rattle.dj_grammar.specs.Statements.{colon_of, ends_body, no_blocks, read_more, read_statements};

use crate::frames::Clause;
use crate::lists::{Lists, Place, ready};
use dj_names::Items;
use dj_syntax::{Stm, fitted};
use dj_tokens::{KnownNames, Reader, Token, is_word, token_of};
use std::alloc::{AllocError, Global};

/// The statements up to the brace that ends a body, behind which the reader goes on.
pub fn read_statements(
    alloc: Global,
    names: &mut KnownNames,
    reader: &mut Reader,
) -> Result<Items<Stm>, AllocError>
    ensures read { IfOk result (λ list. (map view_stm list, reader.new) ≡ read_statements no_blocks reader.old) }
{
    let mut body = Body::new(alloc)?;
    while let Some(word) = reader.take_next() {
        if body.is_ended_by(word) {
            let list = body.into_statements(alloc)?;
            return Ok(list);
        }
        body.read_more(alloc, names, word)?;
    }
    body.into_statements(alloc)
}

/// How far a body is read.
#[derive(Drop)]
struct Body {
    lists: Lists,
    place: Place,
}

impl Body {
    /// Nothing of a body is read.
    fn new(alloc: Global) -> Result<Body, AllocError>
        ensures none { IfOk result (λ body. view_body body ≡ no_blocks) }
    {
        let place = ready(alloc)?;
        Ok(Body {
            lists: Lists::new(alloc),
            place,
        })
    }

    /// Whether the word ends the body: a brace where none is open.
    fn is_ended_by(&self, word: &[u8]) -> bool
        ensures ends { result ≡ ends_body (view_body self.now).outer word.now }
    {
        self.lists.outer.is_empty() && is_word(word, b"}")
    }

    /// A word more of a body.
    fn read_more(
        &mut self,
        alloc: Global,
        names: &mut KnownNames,
        word: &[u8],
    ) -> Result<(), AllocError>
        ensures read { OnOk result (view_body self.new ≡ read_more (view_body self.old) word.now) }
    {
        self.lists.read_more(alloc, names, &mut self.place, word)?;
        Ok(())
    }

    /// All statements of the innermost list.
    fn into_statements(self, alloc: Global) -> Result<Items<Stm>, AllocError>
        ensures flushed { IfOk result (λ list. map view_stm list ≡ flushed (view_body self).list) }
    {
        let Body { lists, place } = self;
        drop(place);
        let Lists { outer, list } = lists;
        drop(outer);
        let list = list.flushed(alloc)?;
        let list = fitted(alloc, list)?;
        Ok(list)
    }
}

impl Lists {
    /// A word more of a body. One of an expression leaves all else where it is.
    fn read_more(
        &mut self,
        alloc: Global,
        names: &mut KnownNames,
        place: &mut Place,
        word: &[u8],
    ) -> Result<(), AllocError>
        ensures read { OnOk result (view_blocks self.new place.new ≡ read_more (view_blocks self.old place.old) word.now) }
    {
        let token = token_of(word);
        match token {
            Token::Open
            | Token::Close
            | Token::OpenBracket
            | Token::CloseBracket
            | Token::Comma
            | Token::Dot
            | Token::Question
            | Token::Assigns
            | Token::Bang
            | Token::Operator(_)
            | Token::Number
            | Token::Text
            | Token::True
            | Token::False
            | Token::Null
            | Token::This
            | Token::New
            | Token::InstanceOf
            | Token::Class
            | Token::Name => place.pass(alloc, names, token, word),
            Token::Colon
            | Token::Semicolon
            | Token::OpenBrace
            | Token::CloseBrace
            | Token::Else
            | Token::Catch
            | Token::Finally
            | Token::Return
            | Token::Throw
            | Token::Break
            | Token::Continue
            | Token::Case
            | Token::Default
            | Token::If
            | Token::While
            | Token::Do
            | Token::For
            | Token::Switch
            | Token::Try
            | Token::Synchronized => self.turn(alloc, names, place, word),
        }
    }

    /// The same, of a word that may begin or end a statement.
    fn turn(
        &mut self,
        alloc: Global,
        names: &mut KnownNames,
        place: &mut Place,
        word: &[u8],
    ) -> Result<(), AllocError>
        ensures read { OnOk result (view_blocks self.new place.new ≡ read_more (view_blocks self.old place.old) word.now) }
    {
        let token = token_of(word);
        match token {
            Token::Open
            | Token::Close
            | Token::OpenBracket
            | Token::CloseBracket
            | Token::Comma
            | Token::Dot
            | Token::Question
            | Token::Assigns
            | Token::Bang
            | Token::Operator(_)
            | Token::Number
            | Token::Text
            | Token::True
            | Token::False
            | Token::Null
            | Token::This
            | Token::New
            | Token::InstanceOf
            | Token::Class
            | Token::Name => place.pass(alloc, names, token, word),
            Token::Colon => self.colon(alloc, names, place, word),
            Token::Semicolon => self.semicolon(alloc, place),
            Token::OpenBrace => self.opening_brace(alloc, place),
            Token::CloseBrace => self.closing_brace(alloc, place),
            Token::Else => self.read_else(alloc, place),
            Token::Catch => self.read_catch(alloc, place),
            Token::Finally => self.read_finally(alloc, place),
            Token::Return => place.begin_value(alloc, Clause::ReturnOf),
            Token::Throw => place.begin_value(alloc, Clause::ThrowOf),
            Token::Break => place.begin_value(alloc, Clause::BreakOf),
            Token::Continue => place.begin_value(alloc, Clause::ContinueOf),
            Token::Case => place.begin_value(alloc, Clause::CaseOf),
            Token::Default => place.begin_value(alloc, Clause::DefaultOf),
            Token::If => place.begin_head(alloc, Clause::IfOf),
            Token::While => place.begin_while(alloc),
            Token::Do => place.begin_head(alloc, Clause::DoOf),
            Token::For => place.begin_head(alloc, Clause::ForOf),
            Token::Switch => place.begin_head(alloc, Clause::SwitchOf),
            Token::Try => place.begin_head(alloc, Clause::TryOf),
            Token::Synchronized => place.begin_head(alloc, Clause::SynchronizedOf),
        }
    }

    /// A semicolon.
    fn semicolon(&mut self, alloc: Global, place: &mut Place) -> Result<(), AllocError>
        ensures ended { OnOk result (view_blocks self.new place.new ≡ end_clause (view_blocks self.old place.old) (view_clause place.old.clause)) }
    {
        let before = place.take(alloc);
        let next = self.end_clause(alloc, before)?;
        place.put(next);
        Ok(())
    }

    /// An opening brace.
    fn opening_brace(&mut self, alloc: Global, place: &mut Place) -> Result<(), AllocError>
        ensures opened { OnOk result (view_blocks self.new place.new ≡ open_brace (view_blocks self.old place.old) (view_clause place.old.clause)) }
    {
        let before = place.take(alloc);
        let next = self.open_brace(alloc, before)?;
        place.put(next);
        Ok(())
    }

    /// A closing brace.
    fn closing_brace(&mut self, alloc: Global, place: &mut Place) -> Result<(), AllocError>
        ensures closed { OnOk result (view_blocks self.new place.new ≡ close_brace (view_blocks self.old place.old) (view_outer self.old.outer)) }
    {
        let next = self.close_brace(alloc)?;
        place.put(next);
        Ok(())
    }

    /// `else`.
    fn read_else(&mut self, alloc: Global, place: &mut Place) -> Result<(), AllocError>
        ensures on { OnOk result (view_blocks self.new place.new ≡ last_goes_on (view_blocks self.old place.old) else_of (view_listed self.old.list).last) }
    {
        let next = self.go_on_else(alloc)?;
        place.put(next);
        Ok(())
    }

    /// `catch`.
    fn read_catch(&mut self, alloc: Global, place: &mut Place) -> Result<(), AllocError>
        ensures on { OnOk result (view_blocks self.new place.new ≡ last_goes_on (view_blocks self.old place.old) catch_clause (view_listed self.old.list).last) }
    {
        let next = self.go_on_catch(alloc)?;
        place.put(next);
        Ok(())
    }

    /// `finally`.
    fn read_finally(&mut self, alloc: Global, place: &mut Place) -> Result<(), AllocError>
        ensures on { OnOk result (view_blocks self.new place.new ≡ last_goes_on (view_blocks self.old place.old) finally_of (view_listed self.old.list).last) }
    {
        let next = self.go_on_finally(alloc)?;
        place.put(next);
        Ok(())
    }

    /// A colon, of a label of a switch or of an expression.
    fn colon(
        &mut self,
        alloc: Global,
        names: &mut KnownNames,
        place: &mut Place,
        word: &[u8],
    ) -> Result<(), AllocError>
        ensures read { OnOk result (view_blocks self.new place.new ≡ colon_of (view_blocks self.old place.old) word.now (view_clause place.old.clause)) }
    {
        match place.clause {
            Clause::CaseOf => self.read_case(alloc, place),
            Clause::DefaultOf => self.read_default(alloc, place),
            Clause::Simple
            | Clause::ReturnOf
            | Clause::ThrowOf
            | Clause::BreakOf
            | Clause::ContinueOf
            | Clause::IfOf
            | Clause::ElseOf(_, _)
            | Clause::WhileOf
            | Clause::SwitchOf
            | Clause::TryOf
            | Clause::CatchOf(_, _)
            | Clause::FinallyOf(_)
            | Clause::SynchronizedOf
            | Clause::DoOf
            | Clause::DoTest(_)
            | Clause::ForOf
            | Clause::ForTest
            | Clause::ForStep(_) => place.pass(alloc, names, token_of(word), word),
        }
    }

    /// The colon of a `case`.
    fn read_case(&mut self, alloc: Global, place: &mut Place) -> Result<(), AllocError>
        ensures read { OnOk result (view_blocks self.new place.new ≡ case_of (view_blocks self.old place.old) (value_in (view_reading place.old.reading))) }
    {
        let before = place.take(alloc);
        let next = self.add_case(alloc, before.into_reading())?;
        place.put(next);
        Ok(())
    }

    /// The colon of a `default`.
    fn read_default(&mut self, alloc: Global, place: &mut Place) -> Result<(), AllocError>
        ensures read { OnOk result (view_blocks self.new place.new ≡ label_outer (view_blocks self.old place.old) (view_outer self.old.outer) None) }
    {
        let next = self.add_label(alloc, None)?;
        place.put(next);
        Ok(())
    }
}
