//! Straight methods: code that is one expression in postfix form and `ireturn`, rebuilt as that expression.

ghost use Rattle.std.specs.Prelude.{◌≡◌, ◌∷◌, [], ◌++◌, ◌<◌, ◌^◌, ◌↔◌, List, reverse, length, Some, IfOk, IsTrue};
ghost use Rattle.dj_syntax.specs.WellFormed.{IsWellFormedExp};
ghost use Rattle.dj_instructions.specs.Instructions.{Instructions, view_instruction, view_instructions};
ghost use Rattle.dj_straight.specs.Rebuilding.{IsNode, IsNodeOf, AreNodes, pushed, joined, calculated, advanced, WentOn, IsClosed, Builds, IsBuiltOf, IsReturn, viewed};
ghost use Rattle.dj_straight.specs.Straight.{Formula, operator, Number, Parameter, IsRebuilt, IfTree};

use crate::part::{Operation, Part, has_straight_opcode, part_of};
use dj_code::Instruction;
use dj_names::{Boxed, Items};
use dj_syntax::{Exp, Op, Var, VarKind};
use std::alloc::{AllocError, Global};

/// The most levels of operators, constants and variables that an expression has.
const LEVELS: usize = 64;

/// What the code of a method is rebuilt as.
#[derive(Drop)]
pub enum Rebuilt {
    /// The expression that it returns.
    Tree(Exp),
    /// It isn't straight; the offset of the first instruction that breaks it.
    Breaks(u32),
}

/// How far instructions were run.
#[derive(Drop)]
enum Begun {
    /// To the end, with these trees on the stack.
    Stack(Items<Node>),
    /// To the first instruction that breaks them, at this offset.
    Breaks(u32),
}

/// The tree of a formula, with its height.
#[derive(Drop)]
struct Node {
    exp: Exp,
    levels: usize,
}

impl Node {
    fn number(number: i32) -> Node
        ensures formula { IsNode result (Number number) }
    {
        Node {
            exp: Exp::Int(number),
            levels: 1,
        }
    }

    fn parameter(slot: u16) -> Node
        ensures formula { IsNode result (Parameter slot) }
    {
        let kind = VarKind::Param;
        let number = u32::from(slot);
        Node {
            exp: Exp::Var(Var { kind, number }),
            levels: 1,
        }
    }

    /// An operator with its operands, None where it is too high.
    fn join(
        alloc: Global,
        operation: Operation,
        left: Node,
        right: Node,
    ) -> Result<Option<Node>, AllocError>
        ensures formula { (x y : Formula) → IsNode left x → IsNode right y → IfOk result (λ node. IsNodeOf node (joined operation x y)) }
    {
        let levels = left.levels.max(right.levels);
        if levels >= LEVELS {
            return Ok(None);
        }
        let left = Boxed::new(alloc, left.exp)?;
        let right = Boxed::new(alloc, right.exp)?;
        Ok(Some(Node {
            exp: Exp::Binary(operator(operation), left, right),
            levels: levels + 1,
        }))
    }
}

/// The operator of an operation.
fn operator(operation: Operation) -> Op
    ensures operator { result ≡ operator operation }
{
    match operation {
        Operation::Add => Op::Add,
        Operation::Sub => Op::Sub,
        Operation::Mul => Op::Mul,
    }
}

/// Puts a node on top where there is room for it, and tells whether there was.
fn push(stack: &mut Items<Node>, node: Node, max_stack: u16) -> Result<bool, AllocError>
    ensures stack { (formula : Formula) (below : List Formula) → IsNode node formula → AreNodes (reverse stack.old) below → IfOk result (λ room. WentOn room (pushed max_stack formula below) (reverse stack.new)) }
{
    if stack.len() >= usize::from(max_stack) {
        return Ok(false);
    }
    stack.push(node)?;
    Ok(true)
}

/// Puts an operator in the place of its operands, and tells whether they were there and not too high.
fn calculate(
    alloc: Global,
    stack: &mut Items<Node>,
    operation: Operation,
) -> Result<bool, AllocError>
    ensures stack { (formulas : List Formula) → AreNodes (reverse stack.old) formulas → IfOk result (λ done. WentOn done (calculated operation formulas) (reverse stack.new)) }
{
    let Some(right) = stack.pop() else {
        return Ok(false);
    };
    let Some(left) = stack.pop() else {
        return Ok(false);
    };
    let Some(node) = Node::join(alloc, operation, left, right)? else {
        return Ok(false);
    };
    stack.push(node)?;
    Ok(true)
}

/// Runs an instruction on the stack, and tells whether it is no return and stays within the limits.
fn advance(
    alloc: Global,
    stack: &mut Items<Node>,
    instruction: &Instruction,
    max_stack: u16,
    parameters: usize,
) -> Result<bool, AllocError>
    ensures stack { (formulas : List Formula) → AreNodes (reverse stack.old) formulas → IfOk result (λ done. WentOn done (advanced parameters max_stack (view_instruction instruction.now) formulas) (reverse stack.new)) }
{
    match part_of(instruction) {
        Some(Part::Number(number)) => push(stack, Node::number(number), max_stack),
        Some(Part::Parameter(slot)) if usize::from(slot) < parameters => {
            push(stack, Node::parameter(slot), max_stack)
        }
        Some(Part::Operator(operation)) => calculate(alloc, stack, operation),
        Some(Part::Parameter(_)) | Some(Part::Return) | None => Ok(false),
    }
}

/// Runs instructions of the code.
fn begin(
    alloc: Global,
    instructions: &[(u32, Instruction)],
    code: &[u8],
    max_stack: u16,
    parameters: usize,
) -> Result<Begun, AllocError>
    ensures built { IfOk result (IsBuiltOf parameters max_stack code.now (view_instructions instructions.now)) }
{
    let mut stack = Items::new(alloc);
    for at in instructions {
        if !has_straight_opcode(code, at.0) {
            return Ok(Begun::Breaks(at.0));
        }
        if !advance(alloc, &mut stack, &at.1, max_stack, parameters)? {
            return Ok(Begun::Breaks(at.0));
        }
    }
    Ok(Begun::Stack(stack))
}

/// Whether an instruction is `ireturn`.
fn is_return(instruction: &Instruction) -> bool
    ensures exact { IsTrue result ↔ IsReturn (view_instruction instruction.now) }
{
    matches!(part_of(instruction), Some(Part::Return))
}

/// What `ireturn` at the end of the code makes of the stack.
fn close(mut stack: Items<Node>, pc: u32) -> Rebuilt
    ensures closed { (formulas : List Formula) → AreNodes (reverse stack) formulas → IsClosed result formulas pc }
{
    match stack.pop() {
        Some(node) if stack.is_empty() => Rebuilt::Tree(node.exp),
        _ => Rebuilt::Breaks(pc),
    }
}

/// What the last instruction of the code makes of the stack of those before it.
fn finish(
    alloc: Global,
    mut stack: Items<Node>,
    last: &(u32, Instruction),
    code: &[u8],
    max_stack: u16,
    parameters: usize,
) -> Result<Rebuilt, AllocError>
    requires short { length code.now < 2 ^ 32 }
    ensures ok { (before : Instructions) (formulas : List Formula) → Builds parameters max_stack code.now before formulas → AreNodes (reverse stack) formulas → IfOk result (IsRebuilt parameters max_stack code.now (before ++ viewed last.now ∷ [])) }
    ensures fits { (formulas : List Formula) → AreNodes (reverse stack) formulas → IfOk result (λ rebuilt. IfTree rebuilt IsWellFormedExp) }
{
    if !has_straight_opcode(code, last.0) {
        return Ok(Rebuilt::Breaks(last.0));
    }
    if is_return(&last.1) {
        return Ok(close(stack, last.0));
    }
    if advance(alloc, &mut stack, &last.1, max_stack, parameters)? {
        Ok(Rebuilt::Breaks(code.len() as u32))
    } else {
        Ok(Rebuilt::Breaks(last.0))
    }
}

/// The expression that the instructions of a static method return, its parameters ints, or the
/// offset at which they aren't straight; the code is their bytes.
pub fn straight_body(
    alloc: Global,
    instructions: &[(u32, Instruction)],
    code: &[u8],
    max_stack: u16,
    parameters: usize,
) -> Result<Rebuilt, AllocError>
    requires short { length code.now < 2 ^ 32 }
    ensures ok { IfOk result (IsRebuilt parameters max_stack code.now (view_instructions instructions.now)) }
    ensures fits { IfOk result (λ rebuilt. IfTree rebuilt IsWellFormedExp) }
{
    match instructions.split_last() {
        Some((last, before)) => match begin(alloc, before, code, max_stack, parameters)? {
            Begun::Stack(stack) => finish(alloc, stack, last, code, max_stack, parameters),
            Begun::Breaks(pc) => Ok(Rebuilt::Breaks(pc)),
        },
        None => Ok(Rebuilt::Breaks(code.len() as u32)),
    }
}
