//! What is made of statements, with how they complete.

ghost use Rattle.std.specs.Prelude.{◌≡◌, [], option_map, IfOk};
ghost use Rattle.dj_syntax.specs.Trees.{view_exp, view_stm};
ghost use Rattle.dj_meaning.specs.Declarations.{declared as declared_by};
ghost use Rattle.dj_declaring.specs.Passes as spec;
ghost use Rattle.dj_lawful.specs.PassViews.{view_all_lost, view_list, view_made, view_made_clauses, view_made_groups};

use dj_names::{Boxed, ClassName, Items, JType};
use dj_places::is_always;
use dj_reach::{Jump, is_one_of};
use dj_scopes::declared;
use dj_syntax::{Catch, Exp, Group, Stm, Var};
use std::alloc::{AllocError, Global};

/// A statement made lawful, whether it can complete normally, and the jumps that leave it.
#[derive(Drop)]
pub struct Made {
    pub statement: Stm,
    pub falls: bool,
    pub jumps: Items<Jump>,
}

/// A declaration that a list loses: the variable and its type.
#[derive(Drop)]
pub struct Lost {
    pub variable: Var,
    pub kind: JType,
}

/// What is made of a list so far, and what it loses.
#[derive(Drop)]
pub struct MadeList {
    pub list: Items<Stm>,
    pub falls: bool,
    pub jumps: Items<Jump>,
    pub lost: Items<Lost>,
}

/// What is made of the groups of a switch so far, and what the last of them loses.
#[derive(Drop)]
pub struct MadeGroups {
    pub groups: Items<Group>,
    pub falls: bool,
    pub jumps: Items<Jump>,
    pub lost: Items<Lost>,
}

/// What is made of catch clauses so far.
#[derive(Drop)]
pub struct MadeClauses {
    pub clauses: Items<Catch>,
    pub falls: bool,
    pub jumps: Items<Jump>,
}

/// The jumps that don't name a label.
fn others(alloc: Global, label: u32, from: &[Jump]) -> Result<Items<Jump>, AllocError>
    ensures others { IfOk result (λ kept. kept ≡ spec.others label from.now) }
{
    let mut kept = Items::new(alloc);
    for jump in from {
        if !jump.is_to(label) {
            kept.push(*jump)?;
        }
    }
    Ok(kept)
}

/// The label whose break stands in place of a return, given the one around statements that aren't to return.
pub fn exit_of(leaving: Option<u32>, value: &Option<Exp>) -> Option<u32>
    ensures exit { result ≡ spec.exit_of leaving (option_map view_exp value.now) }
{
    match value {
        None => leaving,
        Some(_) => None,
    }
}

/// Whether a `do` completes normally, given the label right before it, the answer of its test where it is constant, and
/// how its body completes.
fn repeats_end(own: Option<u32>, known: Option<bool>, falls: bool, jumps: &[Jump]) -> bool
    ensures end { result ≡ spec.repeats_end own known falls jumps.now }
{
    if is_always(true, known) {
        return false;
    }
    if falls {
        return true;
    }
    match own {
        None => false,
        Some(label) => is_one_of(Jump::Continue(label), jumps),
    }
}

impl Made {
    /// A statement that completes normally, if it is reached.
    pub fn going_on(alloc: Global, statement: Stm) -> Made
        ensures made { view_made result ≡ spec.goes_on (view_stm statement) }
    {
        Made {
            statement,
            falls: true,
            jumps: Items::new(alloc),
        }
    }

    /// One that doesn't, and isn't a jump.
    pub fn stopping(alloc: Global, statement: Stm) -> Made
        ensures made { view_made result ≡ spec.stops (view_stm statement) }
    {
        Made {
            statement,
            falls: false,
            jumps: Items::new(alloc),
        }
    }

    /// An equal statement that completes normally, if it is reached.
    pub fn kept(alloc: Global, statement: &Stm) -> Result<Made, AllocError>
        ensures made { IfOk result (λ made. view_made made ≡ spec.goes_on (view_stm statement.now)) }
    {
        let copy = statement.copy(alloc)?;
        Ok(Made::going_on(alloc, copy))
    }

    /// An equal one that doesn't, and isn't a jump.
    pub fn ending(alloc: Global, statement: &Stm) -> Result<Made, AllocError>
        ensures made { IfOk result (λ made. view_made made ≡ spec.stops (view_stm statement.now)) }
    {
        let copy = statement.copy(alloc)?;
        Ok(Made::stopping(alloc, copy))
    }

    /// A jump.
    pub fn leaping(alloc: Global, statement: Stm, jump: Jump) -> Result<Made, AllocError>
        ensures made { IfOk result (λ made. view_made made ≡ spec.leaps (view_stm statement) jump) }
    {
        let mut jumps = Items::new(alloc);
        jumps.push(jump)?;
        Ok(Made {
            statement,
            falls: false,
            jumps,
        })
    }

    /// A statement under a label.
    pub fn under(alloc: Global, label: u32, inner: Made) -> Result<Made, AllocError>
        ensures made { IfOk result (λ made. view_made made ≡ spec.under label (view_made inner)) }
    {
        let falls = inner.falls || is_one_of(Jump::Break(label), inner.jumps.as_slice());
        let jumps = others(alloc, label, inner.jumps.as_slice())?;
        let statement = Boxed::new(alloc, inner.statement)?;
        Ok(Made {
            statement: Stm::Labelled(label, statement),
            falls,
            jumps,
        })
    }

    /// A loop and what leaves its body, given the answer of its test where it is constant.
    fn looped(alloc: Global, known: Option<bool>, statement: Stm, jumps: Items<Jump>) -> Made
        ensures made { view_made result ≡ spec.looped known (view_stm statement) jumps }
    {
        if is_always(false, known) {
            return Made::going_on(alloc, Stm::Block(Items::new(alloc)));
        }
        Made {
            statement,
            falls: !is_always(true, known),
            jumps,
        }
    }

    /// A block.
    pub fn blocked(inner: MadeList) -> Made
        ensures made { view_made result ≡ spec.blocked (view_list inner) }
    {
        Made {
            statement: Stm::Block(inner.list),
            falls: inner.falls,
            jumps: inner.jumps,
        }
    }

    /// An `if`.
    pub fn chosen(
        alloc: Global,
        test: &Exp,
        first: MadeList,
        second: MadeList,
    ) -> Result<Made, AllocError>
        ensures made { IfOk result (λ made. view_made made ≡ spec.chosen (view_exp test.now) (view_list first) (view_list second)) }
    {
        let test = test.copy(alloc)?;
        let falls = first.falls || second.falls;
        let mut jumps = first.jumps;
        jumps.append(second.jumps)?;
        Ok(Made {
            statement: Stm::If(test, first.list, second.list),
            falls,
            jumps,
        })
    }

    /// A `while`, given the answer of its test where it is constant.
    pub fn turning(
        alloc: Global,
        known: Option<bool>,
        test: &Exp,
        inner: MadeList,
    ) -> Result<Made, AllocError>
        ensures made { IfOk result (λ made. view_made made ≡ spec.turning known (view_exp test.now) (view_list inner)) }
    {
        let test = test.copy(alloc)?;
        let statement = Stm::While(test, inner.list);
        Ok(Made::looped(alloc, known, statement, inner.jumps))
    }

    /// A `for`, given the answer of its test where it is constant.
    pub fn counting(
        alloc: Global,
        known: Option<bool>,
        test: &Exp,
        variable: Var,
        step: &Exp,
        inner: MadeList,
    ) -> Result<Made, AllocError>
        ensures made { IfOk result (λ made. view_made made ≡ spec.counting known (view_exp test.now) variable (view_exp step.now) (view_list inner)) }
    {
        let test = test.copy(alloc)?;
        let step = step.copy(alloc)?;
        let statement = Stm::For(test, variable, step, inner.list);
        Ok(Made::looped(alloc, known, statement, inner.jumps))
    }

    /// A `switch`, given whether a group has the label `default`.
    pub fn switched(
        alloc: Global,
        whole: bool,
        on: &Exp,
        inner: MadeGroups,
    ) -> Result<Made, AllocError>
        ensures made { IfOk result (λ made. view_made made ≡ spec.switched whole (view_exp on.now) (view_made_groups inner)) }
    {
        let on = on.copy(alloc)?;
        Ok(Made {
            statement: Stm::Switch(on, inner.groups),
            falls: !whole || inner.falls,
            jumps: inner.jumps,
        })
    }

    /// A `try`.
    pub fn tried(inner: MadeList, caught: MadeClauses) -> Result<Made, AllocError>
        ensures made { IfOk result (λ made. view_made made ≡ spec.tried (view_list inner) (view_made_clauses caught)) }
    {
        let falls = inner.falls || caught.falls;
        let mut jumps = inner.jumps;
        jumps.append(caught.jumps)?;
        Ok(Made {
            statement: Stm::Try(inner.list, caught.clauses),
            falls,
            jumps,
        })
    }

    /// A `synchronized`.
    pub fn locked(alloc: Global, monitor: &Exp, inner: MadeList) -> Result<Made, AllocError>
        ensures made { IfOk result (λ made. view_made made ≡ spec.locked (view_exp monitor.now) (view_list inner)) }
    {
        let monitor = monitor.copy(alloc)?;
        Ok(Made {
            statement: Stm::Synchronized(monitor, inner.list),
            falls: inner.falls,
            jumps: inner.jumps,
        })
    }

    /// A `do`, given the label right before it, and the answer of its test where it is constant.
    pub fn repeated(
        alloc: Global,
        own: Option<u32>,
        known: Option<bool>,
        inner: MadeList,
        test: &Exp,
    ) -> Result<Made, AllocError>
        ensures made { IfOk result (λ made. view_made made ≡ spec.repeated own known (view_list inner) (view_exp test.now)) }
    {
        let falls = repeats_end(own, known, inner.falls, inner.jumps.as_slice());
        let test = test.copy(alloc)?;
        Ok(Made {
            statement: Stm::Do(inner.list, test),
            falls,
            jumps: inner.jumps,
        })
    }

    /// A `try` with a `finally`.
    pub fn with_last(inner: MadeList, behind: MadeList) -> Result<Made, AllocError>
        ensures made { IfOk result (λ made. view_made made ≡ spec.with_last (view_list inner) (view_list behind)) }
    {
        let falls = inner.falls && behind.falls;
        let statement = Stm::Finally(inner.list, behind.list);
        if !behind.falls {
            return Ok(Made {
                statement,
                falls,
                jumps: behind.jumps,
            });
        }
        let mut jumps = inner.jumps;
        jumps.append(behind.jumps)?;
        Ok(Made {
            statement,
            falls,
            jumps,
        })
    }
}

impl MadeList {
    /// Nothing so far.
    pub fn new(alloc: Global) -> MadeList
        ensures made { view_list result ≡ spec.beginning (view_all_lost []) }
    {
        MadeList {
            list: Items::new(alloc),
            falls: true,
            jumps: Items::new(alloc),
            lost: Items::new(alloc),
        }
    }

    /// Declarations in front.
    pub fn beginning(alloc: Global, more: &[Lost]) -> Result<MadeList, AllocError>
        ensures made { IfOk result (λ made. view_list made ≡ spec.beginning (view_all_lost more.now)) }
    {
        let mut list = Items::new(alloc);
        for one in more {
            let kind = one.kind.copy(alloc)?;
            list.push(Stm::Declare(one.variable, kind, None))?;
        }
        Ok(MadeList {
            list,
            falls: true,
            jumps: Items::new(alloc),
            lost: Items::new(alloc),
        })
    }

    /// One statement more, which is reached.
    pub fn add(&mut self, one: Made) -> Result<(), AllocError>
        ensures added { IfOk result (λ _. view_list self.new ≡ spec.with_one (view_made one) (view_list self.old)) }
    {
        self.list.push(one.statement)?;
        self.falls = one.falls;
        self.jumps.append(one.jumps)?;
        Ok(())
    }

    /// One that can't be reached is left out.
    pub fn leave_out(&mut self, alloc: Global, statement: &Stm) -> Result<(), AllocError>
        ensures left_out { IfOk result (λ _. view_list self.new ≡ spec.without_one (declared_by (view_stm statement.now)) (view_list self.old)) }
    {
        match declared(statement) {
            None => Ok(()),
            Some((variable, kind)) => {
                let kind = kind.copy(alloc)?;
                self.lost.push(Lost { variable, kind })
            }
        }
    }
}

impl MadeGroups {
    /// Nothing so far.
    pub fn new(alloc: Global) -> MadeGroups
        ensures made { view_made_groups result ≡ spec.no_groups }
    {
        MadeGroups {
            groups: Items::new(alloc),
            falls: true,
            jumps: Items::new(alloc),
            lost: Items::new(alloc),
        }
    }

    /// One group more.
    pub fn add(
        &mut self,
        alloc: Global,
        labels: &[Option<i32>],
        body: MadeList,
    ) -> Result<(), AllocError>
        ensures added { IfOk result (λ _. view_made_groups self.new ≡ spec.with_group labels.now (view_list body) (view_made_groups self.old)) }
    {
        let labels = Items::from_slice(alloc, labels)?;
        self.groups.push(Group {
            labels,
            body: body.list,
        })?;
        self.falls = body.falls;
        self.jumps.append(body.jumps)?;
        self.lost = body.lost;
        Ok(())
    }
}

impl MadeClauses {
    /// Nothing so far.
    pub fn new(alloc: Global) -> MadeClauses
        ensures made { view_made_clauses result ≡ spec.no_clauses }
    {
        MadeClauses {
            clauses: Items::new(alloc),
            falls: false,
            jumps: Items::new(alloc),
        }
    }

    /// One clause more.
    pub fn add(
        &mut self,
        alloc: Global,
        class: &ClassName,
        variable: Var,
        body: MadeList,
    ) -> Result<(), AllocError>
        ensures added { IfOk result (λ _. view_made_clauses self.new ≡ spec.with_clause class.now variable (view_list body) (view_made_clauses self.old)) }
    {
        let class = class.copy(alloc)?;
        self.clauses.push(Catch {
            class,
            variable,
            body: body.list,
        })?;
        self.falls = self.falls || body.falls;
        self.jumps.append(body.jumps)?;
        Ok(())
    }
}
