//! Entries of the stack while a block is rebuilt, and the operands that are taken from it.

ghost use Rattle.std.specs.Prelude.{◌≡◌, IfOk, option_map};
ghost use Rattle.dj_rebuilding.specs.Pending.{exp_of};
ghost use Rattle.dj_pending.specs.Trees.{view_tree};
ghost use Rattle.dj_pending.specs.Births.{is_born_entry, is_kept_entry, is_unborn_entry};
ghost use Rattle.dj_pending.specs.Entries.{view_atom, view_entry, view_operand, operand_of};

use crate::tree::Tree;
use dj_names::{ClassName, StaticType, Units};
use dj_syntax::{Exp, Var};
use std::alloc::{AllocError, Global};

/// What reads nothing but a variable.
#[derive(Drop)]
pub enum Atom {
    Number(i32),
    Wide(i64),
    Units(Units),
    Nothing,
    Own,
    Named(Var),
}

/// An entry of the stack: an atom or another expression, each with its type; an object whose birth has begun; or once
/// more the entry below.
#[derive(Drop)]
pub enum Entry {
    Kept(StaticType, Atom),
    Whole(StaticType, Tree),
    Born(ClassName),
    Again,
}

/// An expression with its type.
#[derive(Drop)]
pub struct Operand {
    pub kind: StaticType,
    pub tree: Tree,
}

impl Atom {
    /// The atom as an expression.
    pub fn into_tree(self) -> Tree
        ensures exp { view_tree result ≡ exp_of (view_atom self) }
    {
        match self {
            Atom::Number(number) => Tree {
                exp: Exp::Int(number),
                levels: 1,
            },
            Atom::Wide(number) => Tree {
                exp: Exp::Long(number),
                levels: 1,
            },
            Atom::Units(units) => Tree {
                exp: Exp::Text(units),
                levels: 1,
            },
            Atom::Nothing => Tree {
                exp: Exp::Null,
                levels: 1,
            },
            Atom::Own => Tree {
                exp: Exp::This,
                levels: 1,
            },
            Atom::Named(variable) => Tree {
                exp: Exp::Var(variable),
                levels: 1,
            },
        }
    }

    /// An equal atom, which shares its units with this one.
    pub fn copy(&self, alloc: Global) -> Result<Atom, AllocError>
        ensures equal { IfOk result (λ copy. view_atom copy ≡ view_atom self.now) }
    {
        match self {
            Atom::Number(number) => Ok(Atom::Number(*number)),
            Atom::Wide(number) => Ok(Atom::Wide(*number)),
            Atom::Units(units) => Ok(Atom::Units(units.copy(alloc)?)),
            Atom::Nothing => Ok(Atom::Nothing),
            Atom::Own => Ok(Atom::Own),
            Atom::Named(variable) => Ok(Atom::Named(*variable)),
        }
    }
}

impl Entry {
    /// Whether it is an object whose birth has begun.
    pub fn is_born(&self) -> bool
        ensures born { result ≡ is_born_entry (view_entry self.now) }
    {
        match self {
            Entry::Born(_) => true,
            Entry::Kept(_, _) | Entry::Whole(_, _) | Entry::Again => false,
        }
    }

    /// Whether it is an object whose birth has begun, or once more one.
    pub fn is_unborn(&self) -> bool
        ensures unborn { result ≡ is_unborn_entry (view_entry self.now) }
    {
        match self {
            Entry::Born(_) | Entry::Again => true,
            Entry::Kept(_, _) | Entry::Whole(_, _) => false,
        }
    }

    /// Whether it is an atom.
    pub fn is_kept(&self) -> bool
        ensures kept { result ≡ is_kept_entry (view_entry self.now) }
    {
        match self {
            Entry::Kept(_, _) => true,
            Entry::Born(_) | Entry::Whole(_, _) | Entry::Again => false,
        }
    }

    /// An equal entry, which shares names and types with this one.
    pub fn copy(&self, alloc: Global) -> Result<Entry, AllocError>
        ensures equal { IfOk result (λ copy. view_entry copy ≡ view_entry self.now) }
    {
        match self {
            Entry::Kept(kind, atom) => {
                let kind = kind.copy(alloc)?;
                let atom = atom.copy(alloc)?;
                Ok(Entry::Kept(kind, atom))
            }
            Entry::Whole(kind, tree) => {
                let kind = kind.copy(alloc)?;
                let tree = tree.copy(alloc)?;
                Ok(Entry::Whole(kind, tree))
            }
            Entry::Born(class) => Ok(Entry::Born(class.copy(alloc)?)),
            Entry::Again => Ok(Entry::Again),
        }
    }

    /// The entry as an operand, if it is an expression.
    pub fn into_operand(self) -> Option<Operand>
        ensures operand { option_map view_operand result ≡ operand_of (view_entry self) }
    {
        match self {
            Entry::Kept(kind, atom) => Some(Operand {
                kind,
                tree: atom.into_tree(),
            }),
            Entry::Whole(kind, tree) => Some(Operand { kind, tree }),
            Entry::Born(_) => None,
            Entry::Again => None,
        }
    }
}
