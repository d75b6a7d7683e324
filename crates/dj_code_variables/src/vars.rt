//! The variables of code: that of each slot as a block begins, and that which each store writes.

ghost use Rattle.std.specs.Prelude.{◌≡◌, map};
ghost use Rattle.dj_names.specs.Types.{view_type};
ghost use Rattle.dj_code_variables.specs.Views.{IsReady, view_vars};

use dj_code::Frame;
use dj_names::{Items, JType};
use dj_numbers::{Numbers, PlainTypes, number_by};

/// The first frame of each block, where it has one; the number of locals; the variables by their numbers,
/// and the type of each; and by pcs that which a store there writes.
#[derive(Drop)]
pub struct Vars {
    pub firsts: Items<Option<Frame>>,
    pub most: u16,
    pub plain: PlainTypes,
    pub numbers: Numbers,
    pub kinds: Items<JType>,
    pub after: Items<Option<u32>>,
}

impl Vars {
    /// The variable of a slot as a block begins: a local's number, or one past the locals for each entry
    /// of the stack, from the bottom.
    pub fn of(&self, block: u32, slot: u32) -> Option<u32>
        requires ready { IsReady self.now }
        ensures variable { result ≡ (view_vars self.now).of block slot }
    {
        match self.firsts.get(block as usize) {
            Some(Some(frame)) => number_by(
                &self.plain,
                self.most,
                frame,
                slot as usize,
                &self.numbers,
            ),
            Some(None) | None => None,
        }
    }

    /// The variable that the store at a pc writes.
    pub fn after(&self, pc: u32) -> Option<u32>
        ensures variable { result ≡ (view_vars self.now).after pc }
    {
        match self.after.get(pc as usize) {
            Some(variable) => *variable,
            None => None,
        }
    }

    /// The type of each variable, by its number.
    pub fn kinds(&self) -> &[JType]
        ensures kinds { map view_type result.now ≡ (view_vars self.now).kinds }
    {
        self.kinds.as_slice()
    }
}
