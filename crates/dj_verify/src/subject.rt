//! Code with the frames that it gives, looked up by their pcs.

ghost use Rattle.std.specs.Prelude.{◌≡◌, option_map, IfOk};
ghost use Rattle.std.specs.Option.{option_copied};
ghost use Rattle.dj_instructions.specs.Instructions.{IsRising, view_instructions};
ghost use Rattle.dj_frames.specs.Frames.{view_frame, view_frames};
ghost use Rattle.dj_effects.specs.Doing.{IsKnown};
ghost use Rattle.dj_verify.specs.Rules.{frame_in};
ghost use Rattle.dj_verify.specs.Checking.{ArePlacesFrom, IsReady};

use crate::landing::Landing;
use dj_code::Code;
use dj_effects::Known;
use dj_frames::Frame;
use std::alloc::{AllocError, Global};
use std::collections::BTreeMap;

/// The code that is checked, and what is looked up for it.
#[derive(Drop)]
pub struct Subject<'a> {
    pub code: &'a Code,
    pub known: &'a Known,
    pub places: BTreeMap<u32, usize>,
    /// What is the same of each handler wherever it is thrown to.
    pub landings: Vec<Landing<'a>>,
}

/// The place of the first frame at each pc.
fn first_places(alloc: Global, frames: &[(u32, Frame)]) -> Result<BTreeMap<u32, usize>, AllocError>
    ensures first { IfOk result (ArePlacesFrom 0 (view_frames frames.now)) }
{
    let mut places = BTreeMap::new(alloc);
    let mut from = frames.len();
    while from > 0 {
        from -= 1;
        places.insert(frames[from].0, from)?;
    }
    Ok(places)
}

impl<'a> Subject<'a> {
    /// Code to be checked, for which no landings are found yet.
    pub fn new(alloc: Global, known: &'a Known, code: &'a Code) -> Result<Subject<'a>, AllocError>
        requires known { IsKnown known.now }
        requires rising { IsRising (view_instructions code.now.instructions) }
        ensures code { IfOk result (λ subject. subject.code.now ≡ code.now) }
        ensures ready { IfOk result IsReady }
    {
        let places = first_places(alloc, code.frames.as_slice())?;
        Ok(Subject {
            code,
            known,
            places,
            landings: Vec::new(alloc),
        })
    }

    /// The first frame that is given at a pc.
    pub fn given(&self, pc: u32) -> Option<&'a Frame>
        requires ready { IsReady self.now }
        ensures first { option_map view_frame (option_copied result) ≡ frame_in pc (view_frames self.now.code.now.frames) }
    {
        let place = self.places.get(&pc)?;
        match self.code.frames.as_slice().get(*place) {
            Some(at) => Some(&at.1),
            None => None,
        }
    }
}
