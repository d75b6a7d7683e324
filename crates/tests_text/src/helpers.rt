//! The text of a class whose method throws again what it caught has a helper, whose name has the least free number; no class file has such a body printed yet.

use dj_causes::Causes;
use dj_class::{ClassFile, Method, read_class};
use dj_class_text::class_text;
use dj_names::{ClassName, Items, Units};
use dj_syntax::{Body, Stm, Unit, Var, VarKind};
use dj_world::{AddFault, World};
use std::alloc::{AllocError, Global};
use std::test::*;

/// How many fields a class file has at most, how many methods, and how many classes are added here.
const MOST: usize = 65_535;

/// `C`, with a native method `rethrow$0` and a method `f` with code, by the layout of JVMS 4.
const RETHROWS: &str =
    "cafebabe00000034000a010001430700010100106a6176612f6c616e672f4f626a65637407000301000972657468726f77243001000328295601000166010003282949010004436f64650021000200040000000000020108000500060000000800070008000100090000000e000100010000000203ac000000000000";

/// Adds a class, where it clashes with none.
fn add(world: &mut World, class: &ClassFile) -> Result<(), AllocError> {
    if world.members().classes.len() > MOST
        || class.fields.len() > MOST
        || class.methods.len() > MOST
    {
        return Ok(());
    }
    match world.add(class) {
        Ok(()) => Ok(()),
        Err(AddFault::Clash(_)) => Ok(()),
        Err(AddFault::Memory(error)) => Err(error),
    }
}

/// Adds the core classes, where there are few others.
fn fill(world: &mut World) -> Result<(), AllocError> {
    if world.members().classes.len() < 100 {
        world.fill()?;
    }
    Ok(())
}

/// A world of a class and of the core classes.
fn world_of(alloc: Global, class: &ClassFile) -> Result<World, AllocError> {
    let mut world = World::new(alloc);
    add(&mut world, class)?;
    fill(&mut world)?;
    Ok(world)
}

/// A statement that throws again what was caught first.
fn rethrow(alloc: Global) -> Result<Items<Stm>, AllocError> {
    let mut statements = Items::new(alloc);
    statements.push(Stm::Rethrow(Var {
        kind: VarKind::Caught,
        number: 0,
    }))?;
    Ok(statements)
}

/// The body of a method of this class that throws again what it caught first.
fn rethrowing(alloc: Global, class: &ClassName, method: &Method) -> Result<Body, AllocError> {
    let class = class.copy(alloc)?;
    let name = method.name.copy(alloc)?;
    let descriptor = method.descriptor.copy(alloc)?;
    let statements = rethrow(alloc)?;
    Ok(Body {
        class,
        flags: method.flags,
        name,
        descriptor,
        thrown: Items::new(alloc),
        statements,
    })
}

/// No body of a first method, and that of a second one, which throws again what it caught.
fn bodies_of(
    alloc: Global,
    class: &ClassName,
    method: &Method,
) -> Result<Items<Option<Body>>, AllocError> {
    let body = rethrowing(alloc, class, method)?;
    let mut bodies = Items::new(alloc);
    bodies.push(None)?;
    bodies.push(Some(body))?;
    Ok(bodies)
}

/// The unit of a class with these bodies, where there is one for each of its methods.
fn unit_of(
    alloc: Global,
    world: &World,
    class: &ClassFile,
    bodies: Items<Option<Body>>,
) -> Result<Option<Unit>, AllocError> {
    if bodies.len() != class.methods.len() || class.methods.len() > MOST {
        return Ok(None);
    }
    let causes = Causes::new(alloc, world, class)?;
    let unit = class_text(alloc, world, class, &causes, bodies)?;
    Ok(Some(unit))
}

/// The unit of a class of a world, whose last method, of two, throws again what it caught.
fn unit_in(alloc: Global, world: &World, class: &ClassFile) -> Result<Option<Unit>, AllocError> {
    let [_, method] = class.methods.as_slice() else {
        return Ok(None);
    };
    let bodies = bodies_of(alloc, &class.this_class, method)?;
    unit_of(alloc, world, class, bodies)
}

/// The same in a world of the class and the core classes.
fn unit_alone(alloc: Global, class: &ClassFile) -> Result<Option<Unit>, AllocError> {
    let world = world_of(alloc, class)?;
    unit_in(alloc, &world, class)
}

/// Whether a helper has this name.
fn is_named(alloc: Global, helper: &Option<Units>, wanted: &str) -> Result<bool, AllocError> {
    match helper {
        Some(name) => {
            let shown = format!(in alloc; "{name}")?;
            Ok(shown.as_str() == wanted)
        }
        None => Ok(false),
    }
}

/// Whether the helper in the text of a class has this name.
fn names_helper(alloc: Global, class: &ClassFile, wanted: &str) -> Result<bool, AllocError> {
    match unit_alone(alloc, class)? {
        Some(unit) => is_named(alloc, &unit.helper, wanted),
        None => Ok(false),
    }
}

/// The same of the class that the bytes are.
fn has_helper(alloc: Global, bytes: &[u8], wanted: &str) -> Result<bool, AllocError> {
    let Ok(class) = read_class(alloc, bytes, 50) else {
        return Ok(false);
    };
    names_helper(alloc, &class, wanted)
}

#[test]
fn a_helper_has_the_least_free_number(rt: HostRuntime) {
    let bytes = hex::decode(rt.alloc(), RETHROWS.as_bytes()).expect(&rt, "digits");
    let named = has_helper(rt.alloc(), bytes.as_slice(), "rethrow$1").expect(&rt, "memory");
    assert!(rt; named);
}
