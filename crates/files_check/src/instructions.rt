//! Instructions as words: the name of the variant and what it holds.

use crate::variants::{calc_word, element_word, kind_word, test_word};
use dj_code::{Element, FieldRef, Instruction, Kind, MethodRef};
use dj_names::{Constant, Descriptor, JType, Units};
use run_lines::{DescriptorText, TypeText};
use std::fmt;
use std::fmt::Write;

/// An instruction, to be shown.
#[derive(Clone, Copy)]
pub struct InstructionText<'a>(pub &'a Instruction);

impl fmt::Display for InstructionText<'_> {
    fn fmt<W: Write>(&self, f: &mut fmt::Formatter<W>) -> fmt::Result {
        match self.0 {
            Instruction::Nop => f.write_str("Nop"),
            Instruction::PushNull => f.write_str("PushNull"),
            Instruction::Push(constant) => put_constant(constant, f),
            Instruction::PushClass(class) => put_typed("PushClass", class, f),
            Instruction::PushHandle {
                kind,
                interface,
                owner,
                name,
                descriptor,
            } => {
                write!(f, "PushHandle {kind}")?;
                put_member(*interface, owner, name, descriptor, f)
            }
            Instruction::PushMethodType(descriptor) => {
                write!(f, "PushMethodType {}", DescriptorText(descriptor))
            }
            Instruction::Load(kind, slot) => put_local("Load", *kind, *slot, f),
            Instruction::Store(kind, slot) => put_local("Store", *kind, *slot, f),
            Instruction::ArrayLoad(element) => put_element("ArrayLoad", *element, f),
            Instruction::ArrayStore(element) => put_element("ArrayStore", *element, f),
            Instruction::Pop => f.write_str("Pop"),
            Instruction::Pop2 => f.write_str("Pop2"),
            Instruction::Dup => f.write_str("Dup"),
            Instruction::DupX1 => f.write_str("DupX1"),
            Instruction::DupX2 => f.write_str("DupX2"),
            Instruction::Dup2 => f.write_str("Dup2"),
            Instruction::Dup2X1 => f.write_str("Dup2X1"),
            Instruction::Dup2X2 => f.write_str("Dup2X2"),
            Instruction::Swap => f.write_str("Swap"),
            Instruction::Calc(calc, kind) => {
                write!(f, "Calc {} {}", calc_word(*calc), kind_word(*kind))
            }
            Instruction::Iinc(slot, by) => write!(f, "Iinc {slot} {by}"),
            Instruction::Convert(from, to) => {
                write!(f, "Convert {} {}", kind_word(*from), TypeText(to))
            }
            Instruction::Compare(kind, greater) => {
                write!(f, "Compare {} {greater}", kind_word(*kind))
            }
            Instruction::IfZero(test, target) => write!(f, "IfZero {} {target}", test_word(*test)),
            Instruction::IfInts(test, target) => write!(f, "IfInts {} {target}", test_word(*test)),
            Instruction::IfRefs(equal, target) => write!(f, "IfRefs {equal} {target}"),
            Instruction::IfNull(null, target) => write!(f, "IfNull {null} {target}"),
            Instruction::Goto(target) => write!(f, "Goto {target}"),
            Instruction::TableSwitch {
                low,
                targets,
                other,
            } => put_table(*low, targets.as_slice(), *other, f),
            Instruction::LookupSwitch { cases, other } => put_lookup(cases.as_slice(), *other, f),
            Instruction::Return(Some(kind)) => write!(f, "Return {}", kind_word(*kind)),
            Instruction::Return(None) => f.write_str("Return"),
            Instruction::GetStatic(field) => put_field("GetStatic", field, f),
            Instruction::PutStatic(field) => put_field("PutStatic", field, f),
            Instruction::GetField(field) => put_field("GetField", field, f),
            Instruction::PutField(field) => put_field("PutField", field, f),
            Instruction::InvokeVirtual(method) => put_call("InvokeVirtual", method, f),
            Instruction::InvokeSpecial(method) => put_call("InvokeSpecial", method, f),
            Instruction::InvokeStatic(method) => put_call("InvokeStatic", method, f),
            Instruction::InvokeInterface(method) => put_call("InvokeInterface", method, f),
            Instruction::InvokeDynamic {
                bootstrap,
                name,
                descriptor,
            } => {
                let descriptor = DescriptorText(descriptor);
                write!(f, "InvokeDynamic {bootstrap} {name} {descriptor}")
            }
            Instruction::New(class) => write!(f, "New {class}"),
            Instruction::NewArray(element) => put_typed("NewArray", element, f),
            Instruction::MultiNewArray(class, sizes) => {
                write!(f, "MultiNewArray {} {sizes}", TypeText(class))
            }
            Instruction::ArrayLength => f.write_str("ArrayLength"),
            Instruction::Throw => f.write_str("Throw"),
            Instruction::CheckCast(class) => put_typed("CheckCast", class, f),
            Instruction::InstanceOf(class) => put_typed("InstanceOf", class, f),
            Instruction::MonitorEnter => f.write_str("MonitorEnter"),
            Instruction::MonitorExit => f.write_str("MonitorExit"),
        }
    }
}

fn put_constant<W: Write>(constant: &Constant, f: &mut fmt::Formatter<W>) -> fmt::Result {
    match constant {
        Constant::Int(number) => write!(f, "Push Int {number}"),
        Constant::Long(number) => write!(f, "Push Long {number}"),
        Constant::Float(bits) => write!(f, "Push Float {bits:08x}"),
        Constant::Double(bits) => write!(f, "Push Double {bits:016x}"),
        Constant::Text(units) => write!(f, "Push Text \"{units}\""),
    }
}

fn put_typed<W: Write>(word: &str, kind: &JType, f: &mut fmt::Formatter<W>) -> fmt::Result {
    write!(f, "{word} {}", TypeText(kind))
}

fn put_local<W: Write>(
    word: &str,
    kind: Kind,
    slot: u16,
    f: &mut fmt::Formatter<W>,
) -> fmt::Result {
    write!(f, "{word} {} {slot}", kind_word(kind))
}

fn put_element<W: Write>(word: &str, element: Element, f: &mut fmt::Formatter<W>) -> fmt::Result {
    write!(f, "{word} {}", element_word(element))
}

fn put_table<W: Write>(
    low: i32,
    targets: &[u32],
    other: u32,
    f: &mut fmt::Formatter<W>,
) -> fmt::Result {
    write!(f, "TableSwitch {low} {other}")?;
    for target in targets {
        write!(f, " {target}")?;
    }
    Ok(())
}

fn put_lookup<W: Write>(
    cases: &[(i32, u32)],
    other: u32,
    f: &mut fmt::Formatter<W>,
) -> fmt::Result {
    write!(f, "LookupSwitch {other}")?;
    for (key, target) in cases {
        write!(f, " {key}:{target}")?;
    }
    Ok(())
}

fn put_field<W: Write>(word: &str, field: &FieldRef, f: &mut fmt::Formatter<W>) -> fmt::Result {
    let owner = TypeText(&field.owner);
    let kind = TypeText(&field.kind);
    write!(f, "{word} {owner} {} {kind}", field.name)
}

fn put_call<W: Write>(word: &str, method: &MethodRef, f: &mut fmt::Formatter<W>) -> fmt::Result {
    let owner = TypeText(&method.owner);
    let descriptor = DescriptorText(&method.descriptor);
    write!(
        f,
        "{word} {owner} {} {} {descriptor}",
        method.interface, method.name
    )
}

/// The field or method of a handle behind a space.
fn put_member<W: Write>(
    interface: bool,
    owner: &JType,
    name: &Units,
    descriptor: &Descriptor,
    f: &mut fmt::Formatter<W>,
) -> fmt::Result {
    let owner = TypeText(owner);
    let descriptor = DescriptorText(descriptor);
    write!(f, " {interface} {owner} {name} {descriptor}")
}
