//! The slots of a block's end that go into variables of the next block.

ghost use Rattle.std.specs.Prelude.{◌≡◌, ◌++◌, [], IfOk, OnOk};
ghost use Rattle.dj_code_variables.specs.Views.{IsReady, view_vars};
ghost use Rattle.dj_moves.specs.Moves as spec;
ghost use Rattle.dj_moves.specs.Moves.{wanted_by, with_move, moves_of};

use dj_code_variables::Vars;
use dj_names::Items;
use std::alloc::{AllocError, Global};

/// What a slot is at the end of a block: nothing that is known, the local variable of a number, or another atom.
#[derive(Clone, Copy, PartialEq, Eq)]
pub enum Held {
    Unknown,
    Local(u32),
    Else,
}

/// A variable that is put, and the slot that it is put from.
#[derive(Clone, Copy, PartialEq, Eq)]
pub struct Move {
    pub variable: u32,
    pub slot: u32,
}

/// Whether a slot is the variable of a number already.
fn is_held(variable: u32, held: Held) -> bool
    ensures held { result ≡ spec.is_held variable held }
{
    match held {
        Held::Local(other) => other == variable,
        Held::Unknown | Held::Else => false,
    }
}

/// The variable that a block has for a slot as it begins, none where the slot is looked at as `this`.
fn wanted(vars: &Vars, keeps: bool, block: u32, slot: u32) -> Option<u32>
    requires ready { IsReady vars.now }
    ensures wanted { result ≡ wanted_by keeps (view_vars vars.now) block slot }
{
    if keeps && slot == 0 {
        None
    } else {
        vars.of(block, slot)
    }
}

/// Puts the move of a slot behind others, where it isn't what is wanted already.
fn push_move(
    want: Option<u32>,
    held: Held,
    slot: u32,
    moves: &mut Items<Move>,
) -> Result<(), AllocError>
    ensures pushed { OnOk result (moves.new ≡ moves.old ++ with_move want held slot []) }
{
    match want {
        Some(variable) => {
            if !is_held(variable, held) {
                moves.push(Move { variable, slot })?;
            }
            Ok(())
        }
        None => Ok(()),
    }
}

/// The moves of the edge to a block, slot by slot, where the method keeps `this` or not; an error says that
/// memory is wanting, or that there are too many slots.
pub fn moves(
    alloc: Global,
    vars: &Vars,
    keeps: bool,
    block: u32,
    slots: &[Held],
) -> Result<Items<Move>, AllocError>
    requires ready { IsReady vars.now }
    ensures moves { IfOk result (λ moves. moves ≡ moves_of (wanted_by keeps (view_vars vars.now) block) slots.now 0) }
{
    let mut moves = Items::new(alloc);
    for (place, held) in slots.iter().enumerate() {
        let slot = match u32::try_from(place) {
            Ok(slot) => slot,
            Err(_) => return Err(AllocError),
        };
        push_move(wanted(vars, keeps, block, slot), *held, slot, &mut moves)?;
    }
    Ok(moves)
}
