//! What the methods of every class are judged by.

ghost use Rattle.std.specs.Prelude.{◌≡◌, IfOk};
ghost use Rattle.dj_known_world.specs.Known.{is_known_world};

use dj_known_world::is_known;
use dj_verify::Verifier;
use dj_world::World;
use std::alloc::{AllocError, Global};

/// The world that the files make, and what is asked of it once a run.
#[derive(Drop)]
pub struct Basis<'a> {
    pub world: &'a World,
    /// Whether enough is known of it for code to be decompiled.
    pub known: bool,
    /// What verifies code in it.
    pub verifier: Verifier,
    ghost known_is: { known ≡ is_known_world world.now.headers world.now.members },
}

/// What methods of this world's classes are judged by.
pub fn basis_of(alloc: Global, world: &World) -> Result<Basis<'_>, AllocError>
    ensures world { IfOk result (λ basis. basis.world.now ≡ world.now) }
{
    let verifier = Verifier::new(alloc)?;
    let known = is_known(alloc, world)?;
    Ok(Basis {
        world,
        known,
        verifier,
    })
}
