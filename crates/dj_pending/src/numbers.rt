//! Arithmetic, conversions and comparisons as expressions (JLS 5.6, 15.15 to 15.25).

ghost use Rattle.std.specs.Prelude.{◌≡◌, IfOk, option_map};
ghost use Rattle.dj_names.specs.Types.{Of, view_type, view_static};
ghost use Rattle.dj_syntax.specs.Trees.{Cast, Negative};
ghost use Rattle.dj_rebuilt.specs.Nodes as nodes;
ghost use Rattle.dj_rebuilt.specs.Known as known;
ghost use Rattle.dj_pending.specs.Trees.{view_tree};
ghost use Rattle.dj_pending.specs.Entries.{view_operand};
ghost use Rattle.dj_pending.specs.Stacks.{stacked};
ghost use Rattle.dj_pending.specs.Building.{view_built, as_built};
ghost use Rattle.dj_pending.specs.Spilling.{behind};
ghost use Rattle.dj_pending.specs.Strict.{node_built};
ghost use Rattle.dj_pending.specs.Numbers as spec;

use crate::built::Built;
use crate::comparing::{atom_only, comparing};
use crate::entry::{Entry, Operand};
use crate::locals::takes_ints;
use crate::operands::{as_int, is_whole, is_wide};
use crate::stack::Stack;
use crate::tree::Tree;
use dj_instructions::{Calc, Kind};
use dj_names::{JType, StaticType};
use dj_syntax::Op;
use std::alloc::{AllocError, Global};

/// Whether a type is that of ints on the machine's stack, or of longs.
fn is_number(wide: bool, kind: &StaticType) -> bool
    ensures number { result ≡ spec.is_number wide (view_static kind.now) }
{
    if wide { is_wide(kind) } else { is_whole(kind) }
}

/// The type of ints, or of longs.
pub fn number_type(wide: bool) -> JType
    ensures kind { view_type result ≡ spec.number_type wide }
{
    if wide { JType::Long } else { JType::Int }
}

/// Whether ints are converted to a type.
fn converts_int(to: &JType) -> bool
    ensures converts { result ≡ spec.converts_int (view_type to.now) }
{
    match to {
        JType::Byte | JType::Char | JType::Short | JType::Long => true,
        JType::Boolean
        | JType::Int
        | JType::Float
        | JType::Double
        | JType::Class(_)
        | JType::Array(_) => false,
    }
}

/// An operand as an int or a long, if it is one.
fn number_of(alloc: Global, wide: bool, operand: Operand) -> Result<Option<Tree>, AllocError>
    ensures number { IfOk result (λ found. option_map view_tree found ≡ spec.number_of wide (view_operand operand)) }
{
    if !is_number(wide, &operand.kind) {
        return Ok(None);
    }
    if wide {
        return Ok(Some(operand.tree));
    }
    let tree = as_int(alloc, operand)?;
    Ok(Some(tree))
}

impl Stack {
    /// An int or a long from the top; None where none is there.
    fn take_number(&mut self, alloc: Global, wide: bool) -> Result<Option<Tree>, AllocError>
        ensures taken { IfOk result (λ found. spec.found_above (stacked self.new) (option_map view_tree found) ≡ spec.number_taken wide (stacked self.old)) }
    {
        let Some(entry) = self.pop() else {
            return Ok(None);
        };
        let Some(operand) = entry.into_operand() else {
            return Ok(None);
        };
        let found = number_of(alloc, wide, operand)?;
        Ok(found)
    }

    /// A long from the top that is an atom; None where none is there.
    fn take_atom(&mut self, alloc: Global) -> Result<Option<Tree>, AllocError>
        ensures taken { IfOk result (λ found. spec.found_above (stacked self.new) (option_map view_tree found) ≡ spec.atom_taken (stacked self.old)) }
    {
        let Some(tree) = self.take_number(alloc, true)? else {
            return Ok(None);
        };
        Ok(atom_only(tree))
    }
}

impl Built {
    /// An operator between two numbers, in their place; false where they aren't there.
    fn operate(
        &mut self,
        alloc: Global,
        operator: Op,
        first: bool,
        second: bool,
    ) -> Result<bool, AllocError>
        ensures built { IfOk result (λ done. as_built done (view_built self.new)
            ≡ behind (view_built self.old).emitted (spec.two_built operator first second self.old.next (stacked self.old.stack))) }
    {
        let Some(right) = self.stack.take_number(alloc, second)? else {
            return Ok(false);
        };
        let Some(left) = self.stack.take_number(alloc, first)? else {
            return Ok(false);
        };
        let tree = Tree::binary(alloc, operator, left, right)?;
        self.push(Entry::Whole(StaticType::Of(number_type(first)), tree))?;
        Ok(true)
    }

    /// An operation on ints.
    fn int_operation(&mut self, alloc: Global, operator: Op) -> Result<bool, AllocError>
        ensures built { IfOk result (λ done. as_built done (view_built self.new)
            ≡ behind (view_built self.old).emitted (node_built 2 (nodes.int_node operator) self.old.next (stacked self.old.stack))) }
    {
        let done = self.operate(alloc, operator, false, false)?;
        Ok(done)
    }

    /// An operation on longs.
    fn long_operation(&mut self, alloc: Global, operator: Op) -> Result<bool, AllocError>
        ensures built { IfOk result (λ done. as_built done (view_built self.new)
            ≡ behind (view_built self.old).emitted (node_built 2 (nodes.long_node operator) self.old.next (stacked self.old.stack))) }
    {
        let done = self.operate(alloc, operator, true, true)?;
        Ok(done)
    }

    /// A shift of a long by an int.
    fn long_shift(&mut self, alloc: Global, operator: Op) -> Result<bool, AllocError>
        ensures built { IfOk result (λ done. as_built done (view_built self.new)
            ≡ behind (view_built self.old).emitted (node_built 2 (nodes.shift_node operator) self.old.next (stacked self.old.stack))) }
    {
        let done = self.operate(alloc, operator, true, false)?;
        Ok(done)
    }

    /// A number with its sign changed, in its place; false where none is there.
    fn negate(&mut self, alloc: Global, wide: bool) -> Result<bool, AllocError>
        ensures built { IfOk result (λ done. as_built done (view_built self.new)
            ≡ behind (view_built self.old).emitted (spec.one_built wide (spec.number_type wide) Negative self.old.next (stacked self.old.stack))) }
    {
        let Some(operand) = self.stack.take_number(alloc, wide)? else {
            return Ok(false);
        };
        let tree = Tree::negative(alloc, operand)?;
        self.push(Entry::Whole(StaticType::Of(number_type(wide)), tree))?;
        Ok(true)
    }

    /// A number cast to a type, in its place; false where none is there.
    fn cast_number(&mut self, alloc: Global, wide: bool, to: JType) -> Result<bool, AllocError>
        ensures built { IfOk result (λ done. as_built done (view_built self.new)
            ≡ behind (view_built self.old).emitted (spec.one_built wide (view_type to) (Cast (view_type to)) self.old.next (stacked self.old.stack))) }
    {
        let Some(operand) = self.stack.take_number(alloc, wide)? else {
            return Ok(false);
        };
        let kind = StaticType::Of(to.copy(alloc)?);
        let tree = Tree::cast(alloc, to, operand)?;
        self.push(Entry::Whole(kind, tree))?;
        Ok(true)
    }

    /// A conversion of an int to a type.
    fn convert_int(&mut self, alloc: Global, to: JType) -> Result<bool, AllocError>
        ensures built { IfOk result (λ done. as_built done (view_built self.new)
            ≡ behind (view_built self.old).emitted (node_built 1 (nodes.convert_node (view_type to)) self.old.next (stacked self.old.stack))) }
    {
        let done = self.cast_number(alloc, false, to)?;
        Ok(done)
    }

    /// A long cut to an int.
    fn cut_long(&mut self, alloc: Global) -> Result<bool, AllocError>
        ensures built { IfOk result (λ done. as_built done (view_built self.new)
            ≡ behind (view_built self.old).emitted (node_built 1 nodes.cut_node self.old.next (stacked self.old.stack))) }
    {
        let kind = number_type(false);
        let done = self.cast_number(alloc, true, kind)?;
        Ok(done)
    }

    /// An int with its sign changed.
    fn negate_int(&mut self, alloc: Global) -> Result<bool, AllocError>
        ensures built { IfOk result (λ done. as_built done (view_built self.new)
            ≡ behind (view_built self.old).emitted (node_built 1 nodes.int_negative_node self.old.next (stacked self.old.stack))) }
    {
        let done = self.negate(alloc, false)?;
        Ok(done)
    }

    /// A long with its sign changed.
    fn negate_long(&mut self, alloc: Global) -> Result<bool, AllocError>
        ensures built { IfOk result (λ done. as_built done (view_built self.new)
            ≡ behind (view_built self.old).emitted (node_built 1 nodes.long_negative_node self.old.next (stacked self.old.stack))) }
    {
        let done = self.negate(alloc, true)?;
        Ok(done)
    }

    /// Arithmetic on ints.
    fn calculate_ints(&mut self, alloc: Global, operation: Calc) -> Result<bool, AllocError>
        ensures built { IfOk result (λ done. as_built done (view_built self.new)
            ≡ behind (view_built self.old).emitted (node_built (spec.calc_count operation) (nodes.int_nodes operation) self.old.next (stacked self.old.stack))) }
    {
        match operation {
            Calc::Add => self.int_operation(alloc, Op::Add),
            Calc::Sub => self.int_operation(alloc, Op::Sub),
            Calc::Mul => self.int_operation(alloc, Op::Mul),
            Calc::Div => self.int_operation(alloc, Op::Div),
            Calc::Rem => self.int_operation(alloc, Op::Rem),
            Calc::Neg => self.negate_int(alloc),
            Calc::Shl => self.int_operation(alloc, Op::Shl),
            Calc::Shr => self.int_operation(alloc, Op::Shr),
            Calc::Ushr => self.int_operation(alloc, Op::Ushr),
            Calc::And => self.int_operation(alloc, Op::And),
            Calc::Or => self.int_operation(alloc, Op::Or),
            Calc::Xor => self.int_operation(alloc, Op::Xor),
        }
    }

    /// Arithmetic on longs.
    fn calculate_longs(&mut self, alloc: Global, operation: Calc) -> Result<bool, AllocError>
        ensures built { IfOk result (λ done. as_built done (view_built self.new)
            ≡ behind (view_built self.old).emitted (node_built (spec.calc_count operation) (nodes.long_nodes operation) self.old.next (stacked self.old.stack))) }
    {
        match operation {
            Calc::Add => self.long_operation(alloc, Op::Add),
            Calc::Sub => self.long_operation(alloc, Op::Sub),
            Calc::Mul => self.long_operation(alloc, Op::Mul),
            Calc::Div => self.long_operation(alloc, Op::Div),
            Calc::Rem => self.long_operation(alloc, Op::Rem),
            Calc::Neg => self.negate_long(alloc),
            Calc::Shl => self.long_shift(alloc, Op::Shl),
            Calc::Shr => self.long_shift(alloc, Op::Shr),
            Calc::Ushr => self.long_shift(alloc, Op::Ushr),
            Calc::And => self.long_operation(alloc, Op::And),
            Calc::Or => self.long_operation(alloc, Op::Or),
            Calc::Xor => self.long_operation(alloc, Op::Xor),
        }
    }

    /// A calculation; false where it can't be.
    pub fn calculate(
        &mut self,
        alloc: Global,
        operation: Calc,
        kind: Kind,
    ) -> Result<bool, AllocError>
        ensures built { IfOk result (λ done. as_built done (view_built self.new)
            ≡ behind (view_built self.old).emitted (node_built (spec.calc_count operation) (nodes.calc_nodes operation kind) self.old.next (stacked self.old.stack))) }
    {
        match kind {
            Kind::Int => self.calculate_ints(alloc, operation),
            Kind::Long => self.calculate_longs(alloc, operation),
            Kind::Float => Ok(false),
            Kind::Double => Ok(false),
            Kind::Ref => Ok(false),
        }
    }

    /// A conversion of an int.
    fn convert_ints(&mut self, alloc: Global, to: &JType) -> Result<bool, AllocError>
        ensures built { IfOk result (λ done. as_built done (view_built self.new)
            ≡ behind (view_built self.old).emitted (node_built 1 (nodes.int_convert_nodes (view_type to.now)) self.old.next (stacked self.old.stack))) }
    {
        if !converts_int(to) {
            return Ok(false);
        }
        let kind = to.copy(alloc)?;
        let done = self.convert_int(alloc, kind)?;
        Ok(done)
    }

    /// A conversion of a long.
    fn convert_longs(&mut self, alloc: Global, to: &JType) -> Result<bool, AllocError>
        ensures built { IfOk result (λ done. as_built done (view_built self.new)
            ≡ behind (view_built self.old).emitted (node_built 1 (nodes.long_convert_nodes (view_type to.now)) self.old.next (stacked self.old.stack))) }
    {
        if !takes_ints(to) {
            return Ok(false);
        }
        let done = self.cut_long(alloc)?;
        Ok(done)
    }

    /// A conversion of a value of a kind; false where it can't be.
    pub fn convert(&mut self, alloc: Global, from: Kind, to: &JType) -> Result<bool, AllocError>
        ensures built { IfOk result (λ done. as_built done (view_built self.new)
            ≡ behind (view_built self.old).emitted (node_built 1 (nodes.convert_nodes from (view_type to.now)) self.old.next (stacked self.old.stack))) }
    {
        match from {
            Kind::Int => self.convert_ints(alloc, to),
            Kind::Long => self.convert_longs(alloc, to),
            Kind::Float => Ok(false),
            Kind::Double => Ok(false),
            Kind::Ref => Ok(false),
        }
    }

    /// `lcmp`, which stands for longs that are atoms.
    fn compare_longs(&mut self, alloc: Global) -> Result<bool, AllocError>
        ensures built { IfOk result (λ done. as_built done (view_built self.new)
            ≡ behind (view_built self.old).emitted (spec.compared_built self.old.next (stacked self.old.stack))) }
    {
        let Some(right) = self.stack.take_atom(alloc)? else {
            return Ok(false);
        };
        let Some(left) = self.stack.take_atom(alloc)? else {
            return Ok(false);
        };
        let tree = comparing(alloc, &left, &right)?;
        self.push(Entry::Whole(StaticType::Of(number_type(false)), tree))?;
        Ok(true)
    }

    /// `lcmp` as a node.
    fn compare_two(&mut self, alloc: Global) -> Result<bool, AllocError>
        ensures built { IfOk result (λ done. as_built done (view_built self.new)
            ≡ behind (view_built self.old).emitted (node_built 2 known.compare_node self.old.next (stacked self.old.stack))) }
    {
        let done = self.compare_longs(alloc)?;
        Ok(done)
    }

    /// A comparison of values of a kind; false where it can't be.
    pub fn compare(&mut self, alloc: Global, kind: Kind) -> Result<bool, AllocError>
        ensures built { IfOk result (λ done. as_built done (view_built self.new)
            ≡ behind (view_built self.old).emitted (node_built 2 (known.compare_nodes kind) self.old.next (stacked self.old.stack))) }
    {
        match kind {
            Kind::Long => self.compare_two(alloc),
            Kind::Int => Ok(false),
            Kind::Float => Ok(false),
            Kind::Double => Ok(false),
            Kind::Ref => Ok(false),
        }
    }
}
