//! What becomes of the frames of a table, which are found one after another.

ghost use Rattle.std.specs.Prelude.{◌≡◌, ◌++◌, ◌∷◌, [], OnOk};
ghost use Rattle.dj_effects.specs.Doing.{view_working};

use dj_effects::Working;
use dj_frames::Frame;
use dj_names::Items;
use std::alloc::{AllocError, Global};

/// Takes the frames of a table in order.
pub trait Keeping {
    ghost use Rattle.std.specs.Prelude.{List};
    ghost use Rattle.dj_tags.specs.Goes as tags;

    /// What is kept of the frames that were taken.
    ghost keeps: { Self → List tags.Working → Type 0 };

    /// Takes the next frame, which stays as it is.
    fn keep(&mut self, alloc: Global, frame: &mut Working) -> Result<(), AllocError>
        ensures more { OnOk result ((frames : List tags.Working) → keeps self.old frames → keeps self.new (frames ++ view_working frame.old ∷ [])) }
        ensures same { OnOk result (view_working frame.new ≡ view_working frame.old) };
}

impl Keeping for Items<Frame> {
    ghost use Rattle.std.specs.Prelude.{◌≡◌};
    ghost use Rattle.dj_verify.specs.Frames.{workings};

    ghost keeps = { λ kept frames. workings kept ≡ frames };

    fn keep(&mut self, alloc: Global, frame: &mut Working) -> Result<(), AllocError> {
        let frame = frame.frame(alloc)?;
        self.push(frame)?;
        Ok(())
    }
}

/// Lets each frame go.
#[derive(Drop)]
pub struct Passing;

impl Keeping for Passing {
    ghost keeps = { λ kept frames. Unit {0} };

    fn keep(&mut self, _alloc: Global, _frame: &mut Working) -> Result<(), AllocError> {
        Ok(())
    }
}
