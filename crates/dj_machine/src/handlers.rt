//! Which handler takes an exception (JVMS 2.10, 4.7.3).

ghost use Rattle.std.specs.Prelude.{◌≡◌};
ghost use Rattle.dj_names.specs.Types.{view_type};
ghost use Rattle.dj_values.specs.Views.{view_reference};
ghost use Rattle.dj_bytecode.specs.Machine as machine;
ghost use Rattle.dj_machine.specs.Runs.{is_caught};

use crate::classes::is_instance;
use dj_code::Handler;
use dj_headers::Headers;
use dj_names::{ClassName, JType};
use dj_values::RefValue;

/// Whether an exception of this type is one of the class that an entry names, if it names one.
fn is_caught(headers: &Headers, kind: &JType, class: &Option<ClassName>) -> bool
    ensures caught { result ≡ is_caught headers.now (view_type kind.now) class.now }
{
    match class {
        None => true,
        Some(class) => is_instance(headers, kind, class),
    }
}

/// Whether an entry of the exception table takes an exception that is thrown at this offset.
fn takes(headers: &Headers, pc: u32, reference: &RefValue, handler: &Handler) -> bool
    ensures takes { result ≡ machine.takes headers.now pc (view_reference reference.now) handler.now }
{
    if handler.start <= pc && pc < handler.end {
        is_caught(headers, &reference.class, &handler.class)
    } else {
        false
    }
}

/// Where the first entry that takes an exception leads.
pub fn handler_for(
    headers: &Headers,
    pc: u32,
    reference: &RefValue,
    handlers: &[Handler],
) -> Option<u32>
    ensures target { result ≡ machine.handler_for headers.now pc (view_reference reference.now) handlers.now }
{
    for handler in handlers {
        if takes(headers, pc, reference, handler) {
            return Some(handler.target);
        }
    }
    None
}
