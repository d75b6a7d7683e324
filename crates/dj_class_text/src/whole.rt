//! The unit of a class, given the bodies of its methods (JVMS 4.1).

ghost use Rattle.std.specs.Prelude.{◌≡◌, ◌<◌, ◌^◌, map, option_map, length, IfOk};
ghost use Rattle.dj_syntax.specs.Trees.{view_unit, view_body};
ghost use Rattle.dj_syntax.specs.UnitText.{is_interface};
ghost use Rattle.dj_class.specs.Views.{view_class};
ghost use Rattle.dj_causes.specs.Tables.{AreCauses};
ghost use Rattle.dj_class_text.specs.ClassText.{shown_superclass, IsClassText};

use crate::fields::field_texts;
use crate::helper::helper_of;
use crate::methods::method_texts;
use crate::split::split_name;
use dj_causes::Causes;
use dj_class::ClassFile;
use dj_names::{ClassName, Items, copy_names, is_word};
use dj_syntax::{Body, Unit, held_class, is_interface};
use dj_world::World;
use std::alloc::{AllocError, Global};

/// The superclass that the text of a class names, if any.
fn shown_superclass(
    alloc: Global,
    interface: bool,
    superclass: &Option<ClassName>,
) -> Result<Option<ClassName>, AllocError>
    ensures shown { IfOk result (λ found. found ≡ shown_superclass interface superclass.now) }
{
    match superclass {
        None => Ok(None),
        Some(name) => {
            if interface || is_word(name.as_slice(), "java/lang/Object") {
                Ok(None)
            } else {
                Ok(Some(name.copy(alloc)?))
            }
        }
    }
}

/// The unit of a class with these bodies of its methods, one place a method.
pub fn class_text(
    alloc: Global,
    world: &World,
    class: &ClassFile,
    causes: &Causes,
    bodies: Items<Option<Body>>,
) -> Result<Unit, AllocError>
    requires made { AreCauses world.now (view_class class.now) causes.now }
    requires paired { length bodies ≡ length class.now.methods }
    // A class file has at most 65,535 methods (JVMS 4.1).
    requires few { length class.now.methods < 2 ^ 32 }
    ensures text { IfOk result (λ unit. IsClassText world.now (view_class class.now) (map (option_map view_body) bodies) (view_unit unit)) }
{
    let fields = field_texts(alloc, world, class, causes)?;
    let methods = method_texts(alloc, world, class, causes, bodies)?;
    let helper = helper_of(alloc, class, causes, methods.as_slice())?;
    let name = split_name(alloc, &class.this_class)?;
    let superclass = shown_superclass(alloc, is_interface(class.flags), &class.super_class)?;
    let interfaces = copy_names(alloc, class.interfaces.as_slice())?;
    Ok(Unit {
        package: name.package,
        flags: held_class(class.flags),
        name: name.simple,
        superclass,
        interfaces,
        fields,
        helper,
        methods,
    })
}
