//! What the test tells.

ghost use Rattle.dj_known_world.specs.Known.{KnownWorlds};

/// A world that passes has the core of classes, and its members are those of its classes.
pub fn known_worlds()
    ensures known { KnownWorlds }
{}
