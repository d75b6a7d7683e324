//! Where jumps lead (JVMS 2.11.7, 6.5).

ghost use Rattle.std.specs.Prelude.{◌≡◌, List};
ghost use Rattle.dj_names.specs.declared.header.Header.{Header};
ghost use Rattle.dj_names.specs.Headers.{Name};
ghost use Rattle.dj_values.specs.Views.{view_id, view_values};
ghost use Rattle.dj_instructions.specs.Instructions.{view_instruction};
ghost use Rattle.dj_instructions.specs.Instructions as op;
ghost use Rattle.dj_bytecode.specs.Calculations as spec;
ghost use Rattle.dj_bytecode.specs.Objects.{is_same_id};
ghost use Rattle.dj_bytecode.specs.Meanings.{meaning_of};
ghost use Rattle.dj_operands.specs.Replies.{as_wanted, view_jump, choice_of};
ghost use Rattle.dj_operands.specs.Replies as replies;

use dj_instructions::{Instruction, Test};
use dj_values::{RefId, Value};

/// Where a jump leads: to the instruction behind it, or to an offset; or an operand is missing or of
/// another kind.
#[derive(Clone, Copy)]
pub enum Jump {
    On,
    To(u32),
    Stuck,
}

/// To the target where the test holds, else on.
fn led(holding: bool, target: u32) -> Jump
    ensures led { view_jump result ≡ spec.led holding target }
{
    if holding { Jump::To(target) } else { Jump::On }
}

/// A test of two ints.
fn holds(test: Test, left: i32, right: i32) -> bool
    ensures holds { result ≡ spec.holds test left right }
{
    match test {
        Test::Eq => left == right,
        Test::Ne => left != right,
        Test::Lt => left < right,
        Test::Ge => left >= right,
        Test::Gt => left > right,
        Test::Le => left <= right,
    }
}

/// Whether two references have one id.
fn is_same_id(first: &RefId, second: &RefId) -> bool
    ensures same { result ≡ is_same_id (view_id first.now) (view_id second.now) }
{
    match first {
        RefId::Number(number) => match second {
            RefId::Number(other) => number == other,
            RefId::Text(_) => false,
        },
        RefId::Text(units) => match second {
            RefId::Number(_) => false,
            RefId::Text(other) => units == other,
        },
    }
}

/// Where `tableswitch` leads an int.
fn in_table(low: i32, targets: &[u32], other: u32, number: i32) -> u32
    ensures target { result ≡ spec.in_table low targets.now other number }
{
    if number < low {
        return other;
    }
    match targets.get(number.abs_diff(low) as usize) {
        Some(target) => *target,
        None => other,
    }
}

/// Where `lookupswitch` leads an int.
fn in_cases(cases: &[(i32, u32)], other: u32, number: i32) -> u32
    ensures target { result ≡ spec.in_cases cases.now other number }
{
    for case in cases {
        if case.0 == number {
            return case.1;
        }
    }
    other
}

/// Whether two references are as a jump wants them: equal, or not.
fn as_wanted(equal: bool, same: bool) -> bool
    ensures wanted { result ≡ as_wanted equal same }
{
    if equal { same } else { !same }
}

/// `if_acmpeq` and `if_acmpne`
fn on_references(equal: bool, target: u32, operands: &[Value]) -> Jump
    ensures leads { view_jump result ≡ replies.on_references equal target (view_values operands.now) }
{
    match operands {
        [Value::Null, Value::Null] => led(as_wanted(equal, true), target),
        [Value::Null, Value::Ref(_)] => led(as_wanted(equal, false), target),
        [Value::Ref(_), Value::Null] => led(as_wanted(equal, false), target),
        [Value::Ref(first), Value::Ref(second)] => {
            led(as_wanted(equal, is_same_id(&first.id, &second.id)), target)
        }
        _ => Jump::Stuck,
    }
}

/// `ifnull` and `ifnonnull`
fn on_null(null: bool, target: u32, operands: &[Value]) -> Jump
    ensures leads { view_jump result ≡ replies.on_null null target (view_values operands.now) }
{
    match operands {
        [Value::Null] => led(as_wanted(null, true), target),
        [Value::Ref(_)] => led(as_wanted(null, false), target),
        _ => Jump::Stuck,
    }
}

/// `ifeq` and those like it.
fn on_int(test: Test, target: u32, operands: &[Value]) -> Jump
    ensures leads { (headers : List Header) (class : Name) → view_jump result ≡ choice_of (meaning_of headers class (op.IfZero test target)) (view_values operands.now) }
{
    match operands {
        [Value::Int(number)] => led(holds(test, *number, 0), target),
        _ => Jump::Stuck,
    }
}

/// `if_icmpeq` and those like it.
fn on_ints(test: Test, target: u32, operands: &[Value]) -> Jump
    ensures leads { (headers : List Header) (class : Name) → view_jump result ≡ choice_of (meaning_of headers class (op.IfInts test target)) (view_values operands.now) }
{
    match operands {
        [Value::Int(left), Value::Int(right)] => led(holds(test, *left, *right), target),
        _ => Jump::Stuck,
    }
}

/// `tableswitch`
fn by_table(low: i32, targets: &[u32], other: u32, operands: &[Value]) -> Jump
    ensures leads { (headers : List Header) (class : Name) → view_jump result ≡ choice_of (meaning_of headers class (op.TableSwitch low targets.now other)) (view_values operands.now) }
{
    match operands {
        [Value::Int(number)] => Jump::To(in_table(low, targets, other, *number)),
        _ => Jump::Stuck,
    }
}

/// `lookupswitch`
fn by_cases(cases: &[(i32, u32)], other: u32, operands: &[Value]) -> Jump
    ensures leads { (headers : List Header) (class : Name) → view_jump result ≡ choice_of (meaning_of headers class (op.LookupSwitch cases.now other)) (view_values operands.now) }
{
    match operands {
        [Value::Int(number)] => Jump::To(in_cases(cases, other, *number)),
        _ => Jump::Stuck,
    }
}

/// Where a jump leads with these operands.
pub fn jump_of(instruction: &Instruction, operands: &[Value]) -> Jump
    ensures leads { (headers : List Header) (class : Name) → view_jump result ≡ choice_of (meaning_of headers class (view_instruction instruction.now)) (view_values operands.now) }
{
    match instruction {
        Instruction::IfZero(test, target) => on_int(*test, *target, operands),
        Instruction::IfInts(test, target) => on_ints(*test, *target, operands),
        Instruction::IfRefs(equal, target) => on_references(*equal, *target, operands),
        Instruction::IfNull(null, target) => on_null(*null, *target, operands),
        Instruction::Goto(target) => Jump::To(*target),
        Instruction::TableSwitch {
            low,
            targets,
            other,
        } => by_table(*low, targets.as_slice(), *other, operands),
        Instruction::LookupSwitch { cases, other } => {
            by_cases(cases.as_slice(), *other, operands)
        }
        Instruction::Nop
        | Instruction::PushNull
        | Instruction::Push(_)
        | Instruction::PushClass(_)
        | Instruction::PushHandle { .. }
        | Instruction::PushMethodType(_)
        | Instruction::Load(_, _)
        | Instruction::Store(_, _)
        | Instruction::ArrayLoad(_)
        | Instruction::ArrayStore(_)
        | Instruction::Pop
        | Instruction::Pop2
        | Instruction::Dup
        | Instruction::DupX1
        | Instruction::DupX2
        | Instruction::Dup2
        | Instruction::Dup2X1
        | Instruction::Dup2X2
        | Instruction::Swap
        | Instruction::Calc(_, _)
        | Instruction::Iinc(_, _)
        | Instruction::Convert(_, _)
        | Instruction::Compare(_, _)
        | Instruction::Return(_)
        | Instruction::GetStatic(_)
        | Instruction::PutStatic(_)
        | Instruction::GetField(_)
        | Instruction::PutField(_)
        | Instruction::InvokeVirtual(_)
        | Instruction::InvokeSpecial(_)
        | Instruction::InvokeStatic(_)
        | Instruction::InvokeInterface(_)
        | Instruction::InvokeDynamic { .. }
        | Instruction::New(_)
        | Instruction::NewArray(_)
        | Instruction::MultiNewArray(_, _)
        | Instruction::ArrayLength
        | Instruction::Throw
        | Instruction::CheckCast(_)
        | Instruction::InstanceOf(_)
        | Instruction::MonitorEnter
        | Instruction::MonitorExit => Jump::Stuck,
    }
}
