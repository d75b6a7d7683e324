//! What is open around a statement that is read (JLS 14).

ghost use Rattle.std.specs.Prelude.{◌≡◌, IfOk, map, reverse};
ghost use Rattle.dj_syntax.specs.Trees.{view_stm};
ghost use Rattle.dj_grammar.specs.Open.{flushed, no_statements, wrapped};
ghost use Rattle.dj_statements.specs.OpenViews.{view_listed};

use dj_names::{Boxed, ClassName, Items};
use dj_syntax::{Catch, Exp, Group, Stm, Var};
use std::alloc::{AllocError, Global};

/// What a brace that is open belongs to: a block; an `if`, or its `else`, with the test and the
/// statements before; a `while`; a `switch`, with its groups and the labels of the last one; a `try`; a
/// `catch`, with the statements and clauses before, its class and its variable; a `synchronized`; a
/// `do`; a `for`; a `finally`.
#[derive(Drop)]
pub enum Kind {
    InBlock,
    InIf(Exp),
    InElse(Exp, Items<Stm>),
    InWhile(Exp),
    InSwitch(Exp, Items<Group>, Items<Option<i32>>),
    InTry,
    InCatch(Items<Stm>, Items<Catch>, ClassName, Var),
    InSynchronized(Exp),
    InDo,
    InFor(Exp, Var, Exp),
    InFinally(Items<Stm>),
}

/// An open brace: what it belongs to, with its labels, the innermost last, and the statements before it.
#[derive(Drop)]
pub struct Frame {
    pub kind: Kind,
    pub labels: Items<u32>,
    pub before: Items<Stm>,
}

/// A statement and its labels, the innermost last.
#[derive(Drop)]
pub struct Last {
    pub statement: Stm,
    pub labels: Items<u32>,
}

/// The statements of a list so far; the last one is kept apart with its labels, since it may go on with
/// `else`, `catch` or `finally`.
#[derive(Drop)]
pub struct Listed {
    pub before: Items<Stm>,
    pub last: Option<Last>,
}

/// What the words of a statement are read for.
#[derive(Drop)]
pub enum Clause {
    Simple,
    ReturnOf,
    ThrowOf,
    BreakOf,
    ContinueOf,
    IfOf,
    ElseOf(Exp, Items<Stm>),
    WhileOf,
    SwitchOf,
    CaseOf,
    DefaultOf,
    TryOf,
    CatchOf(Items<Stm>, Items<Catch>),
    FinallyOf(Items<Stm>),
    SynchronizedOf,
    DoOf,
    DoTest(Items<Stm>),
    ForOf,
    ForTest,
    ForStep(Exp),
}

impl Listed {
    /// No statements.
    pub fn new(alloc: Global) -> Listed
        ensures none { view_listed result ≡ no_statements }
    {
        Listed {
            before: Items::new(alloc),
            last: None,
        }
    }

    /// All statements of the list.
    pub fn flushed(self, alloc: Global) -> Result<Items<Stm>, AllocError>
        ensures flushed { IfOk result (λ list. map view_stm list ≡ flushed (view_listed self)) }
    {
        let Listed { mut before, last } = self;
        if let Some(Last { statement, labels }) = last {
            before.push(wrapped(alloc, statement, labels)?)?;
        }
        Ok(before)
    }
}

/// A statement with its labels.
fn wrapped(alloc: Global, mut statement: Stm, mut labels: Items<u32>) -> Result<Stm, AllocError>
    ensures wrapped { IfOk result (λ made. view_stm made ≡ wrapped (view_stm statement) (reverse labels)) }
{
    while let Some(label) = labels.pop() {
        statement = Stm::Labelled(label, Boxed::new(alloc, statement)?);
    }
    Ok(statement)
}
