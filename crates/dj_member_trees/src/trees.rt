//! Expressions on members, arrays and classes, with their levels.

ghost use Rattle.std.specs.Prelude.{◌≡◌, ◌+◌, min, ℕ, IfOk, codes, option_map};
ghost use Rattle.dj_names.specs.Types.{Of, Class, Int, Boolean, view_type, view_static};
ghost use Rattle.dj_syntax.specs.Trees as trees;
ghost use Rattle.dj_syntax.specs.Trees.{view_exps};
ghost use Rattle.dj_names.specs.Assignable.{object_name};
ghost use Rattle.dj_pending.specs.Trees.{view_tree};

use crate::arguments::Arguments;
use dj_names::{Boxed, ClassName, JType, StaticType, Units};
use dj_pending::Tree;
use dj_syntax::Exp;
use std::alloc::{AllocError, Global};

/// One level more; all above 64 count as one.
fn above(levels: u8) -> u8
    ensures above { result ≡ min (levels + 1) 65 }
{
    if levels < 65 { levels + 1 } else { 65 }
}

/// A static field.
pub fn static_tree(alloc: Global, class: &ClassName, name: &Units) -> Result<Tree, AllocError>
    ensures tree { IfOk result (λ made. view_tree made ≡ trees.Static class.now name.now) }
{
    let class = class.copy(alloc)?;
    let name = name.copy(alloc)?;
    Ok(Tree {
        exp: Exp::Static(class, name),
        levels: 1,
    })
}

/// A class constant.
pub fn class_tree(alloc: Global, kind: &JType) -> Result<Tree, AllocError>
    ensures tree { IfOk result (λ made. view_tree made ≡ trees.ClassOf (view_type kind.now)) }
{
    let kind = kind.copy(alloc)?;
    Ok(Tree {
        exp: Exp::ClassOf(kind),
        levels: 1,
    })
}

/// A test whether an object is of a type.
pub fn instance_tree(alloc: Global, object: Tree, kind: &JType) -> Result<Tree, AllocError>
    ensures tree { IfOk result (λ made. view_tree made ≡ trees.InstanceOf (view_tree object) (view_type kind.now)) }
{
    let levels = above(object.levels);
    let kind = kind.copy(alloc)?;
    let object = Boxed::new(alloc, object.exp)?;
    Ok(Tree {
        exp: Exp::InstanceOf(object, kind),
        levels,
    })
}

/// A new array of innermost elements of a type, with sizes and so many dimensions that have none.
pub fn array_tree(
    alloc: Global,
    kind: &JType,
    sizes: Arguments,
    more: u32,
) -> Result<Tree, AllocError>
    ensures tree { IfOk result (λ made. view_tree made ≡ trees.NewArray (view_type kind.now) (view_exps sizes.exps) more) }
{
    let levels = above(sizes.levels);
    let kind = kind.copy(alloc)?;
    let sizes = Boxed::new(alloc, sizes.exps)?;
    Ok(Tree {
        exp: Exp::NewArray(kind, sizes, more),
        levels,
    })
}

/// A call on an object.
pub fn call_tree(
    alloc: Global,
    object: Tree,
    name: &Units,
    arguments: Arguments,
) -> Result<Tree, AllocError>
    ensures tree { IfOk result (λ made. view_tree made ≡ trees.Call (view_tree object) name.now (view_exps arguments.exps)) }
{
    let levels = above(object.levels.max(arguments.levels));
    let name = name.copy(alloc)?;
    let object = Boxed::new(alloc, object.exp)?;
    let arguments = Boxed::new(alloc, arguments.exps)?;
    Ok(Tree {
        exp: Exp::Call(object, name, arguments),
        levels,
    })
}

/// A call of a static method.
pub fn static_call_tree(
    alloc: Global,
    class: &ClassName,
    name: &Units,
    arguments: Arguments,
) -> Result<Tree, AllocError>
    ensures tree { IfOk result (λ made. view_tree made ≡ trees.StaticCall class.now name.now (view_exps arguments.exps)) }
{
    let levels = above(arguments.levels);
    let class = class.copy(alloc)?;
    let name = name.copy(alloc)?;
    let arguments = Boxed::new(alloc, arguments.exps)?;
    Ok(Tree {
        exp: Exp::StaticCall(class, name, arguments),
        levels,
    })
}

/// A call behind `super`, of an interface where one is named.
pub fn super_call_tree(
    alloc: Global,
    interface: Option<ClassName>,
    name: &Units,
    arguments: Arguments,
) -> Result<Tree, AllocError>
    ensures tree { IfOk result (λ made. view_tree made ≡ trees.SuperCall interface name.now (view_exps arguments.exps)) }
{
    let levels = above(arguments.levels);
    let name = name.copy(alloc)?;
    let arguments = Boxed::new(alloc, arguments.exps)?;
    Ok(Tree {
        exp: Exp::SuperCall(interface, name, arguments),
        levels,
    })
}

/// A new object of a class.
pub fn new_tree(alloc: Global, class: &ClassName, arguments: Arguments) -> Result<Tree, AllocError>
    ensures tree { IfOk result (λ made. view_tree made ≡ trees.New class.now (view_exps arguments.exps)) }
{
    let levels = above(arguments.levels);
    let class = class.copy(alloc)?;
    let arguments = Boxed::new(alloc, arguments.exps)?;
    Ok(Tree {
        exp: Exp::New(class, arguments),
        levels,
    })
}

/// The type of ints.
pub fn int_type() -> JType
    ensures kind { view_type result ≡ Int }
{
    JType::Int
}

/// The type of truth values.
pub fn boolean_type() -> JType
    ensures kind { view_type result ≡ Boolean }
{
    JType::Boolean
}

/// The class above all.
pub fn object_type(alloc: Global) -> Result<JType, AllocError>
    ensures object { IfOk result (λ kind. view_type kind ≡ Class object_name) }
{
    let name = Units::from_slice(
        alloc,
        &[
            106, 97, 118, 97, 47, 108, 97, 110, 103, 47, 79, 98, 106, 101, 99, 116,
        ],
    )?;
    Ok(JType::Class(ClassName::new(name)))
}

/// The class of class constants.
pub fn class_type(alloc: Global) -> Result<StaticType, AllocError>
    ensures class { IfOk result (λ kind. view_static kind ≡ Of (Class (codes "java/lang/Class"))) }
{
    let name = Units::from_slice(
        alloc,
        &[
            106, 97, 118, 97, 47, 108, 97, 110, 103, 47, 67, 108, 97, 115, 115,
        ],
    )?;
    Ok(StaticType::Of(JType::Class(ClassName::new(name))))
}

/// The name of an array's length.
pub fn length_name(alloc: Global) -> Result<Units, AllocError>
    ensures name { IfOk result (λ name. name ≡ codes "length") }
{
    Units::from_slice(alloc, &[108, 101, 110, 103, 116, 104])
}
