//! What tells the methods of a class from each other, as numbers.

ghost use Rattle.std.specs.Prelude.{◌≡◌, IfOk, map};
ghost use Rattle.dj_class.specs.Views.{view_method};
ghost use Rattle.dj_signatures.specs.Numbers.{Extends, AreNumbers};
ghost use Rattle.dj_signatures.specs.Keys.{IsKey, AreKeys};

use crate::numbers::{Numbers, learn};
use crate::spelled::{spelled_descriptor, spelled_parameters};
use dj_class::Method;
use std::alloc::{AllocError, Global};
use std::collections::BTreeMap;

const BRIDGE: u16 = 0x0040;

/// The numbers of a method's name, of its parameters and of its descriptor, and whether a compiler made it to stand for
/// another.
#[derive(Drop)]
pub struct Key {
    pub name: usize,
    pub parameters: usize,
    pub descriptor: usize,
    pub bridge: bool,
}

/// The key of a method.
fn key_of(alloc: Global, numbers: &mut Numbers, method: &Method) -> Result<Key, AllocError>
    ensures key { IfOk result (IsKey numbers.new (view_method method.now)) }
    ensures extends { Extends numbers.old numbers.new }
    ensures index { AreNumbers numbers.old → AreNumbers numbers.new }
{
    let name = learn(numbers, method.name.copy(alloc)?)?;
    let parameters = learn(numbers, spelled_parameters(alloc, &method.descriptor)?)?;
    let descriptor = learn(numbers, spelled_descriptor(alloc, &method.descriptor)?)?;
    Ok(Key {
        name,
        parameters,
        descriptor,
        bridge: method.flags & BRIDGE != 0,
    })
}

/// The keys of methods, in order.
pub fn keys_of(alloc: Global, methods: &[Method]) -> Result<Vec<Key>, AllocError>
    ensures keys { IfOk result (λ keys. AreKeys (map view_method methods.now) keys.items) }
{
    let mut numbers = BTreeMap::new(alloc);
    let mut keys = Vec::new(alloc);
    for method in methods {
        keys.push(key_of(alloc, &mut numbers, method)?)?;
    }
    Ok(keys)
}
