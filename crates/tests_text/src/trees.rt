//! Trees, weighed, and their text put into a sink.

use crate::texts::KINDS;
use dj_outer::MemorySink;
use dj_print::print_unit;
use dj_read::{ReadUnitFault, read_unit};
use dj_syntax::{Stm, Unit, weight};
use std::alloc::Global;
use std::test::*;

/// The text that a sink takes of the unit that these bytes are read as.
fn put_again(alloc: Global, bytes: &[u8]) -> Result<Option<MemorySink>, ReadUnitFault> {
    let unit = read_unit(alloc, bytes)?;
    let mut sink = MemorySink::new(alloc, 10_000, Vec::new(alloc))?;
    match print_unit(&unit, &mut sink) {
        Ok(()) => Ok(Some(sink)),
        Err(_) => Ok(None),
    }
}

#[test]
fn a_text_is_put_into_a_sink(rt: HostRuntime) -> Result<(), Fail> {
    let taken = match put_again(rt.alloc(), KINDS.as_bytes()) {
        Ok(Some(sink)) => sink.taken() == KINDS.as_bytes(),
        Ok(None) | Err(_) => false,
    };
    assert!(rt; taken);
    Ok(())
}

/// The first statement of the first method, where there is one.
fn first_statement(unit: &Unit) -> Option<&Stm> {
    let method = unit.methods.as_slice().first()?;
    let body = method.body.as_ref()?;
    body.statements.as_slice().first()
}

/// A statement of weight 12: itself, a comparison with its operands, a `return` of a minus sign and its operand, a
/// store of a call with its object and two arguments.
const WEIGHED: &str = "class C {
    int f(int p0) {
        if (p0 == 5) {
            return -p0;
        } else {
            v0 = p0.f(1, 2L);
        }
    }
}
";

#[test]
fn a_statement_is_weighed(rt: HostRuntime) -> Result<(), Fail> {
    let unit = read_unit(rt.alloc(), WEIGHED.as_bytes())?;
    let weight = match first_statement(&unit) {
        Some(statement) => weight(statement),
        None => 0,
    };
    assert_eq!(rt; weight, 12);
    Ok(())
}
