//! What a world's classes are as a machine loads them.

ghost use Rattle.std.specs.Prelude.{List};
ghost use Rattle.dj_names.specs.declared.header.Header.{Header};
ghost use Rattle.dj_loaded.specs.Loaded.{AreLoadable, MayRun};
ghost use Rattle.dj_world.specs.Clashes.{IsLawful};

/// Classes of which none clashes with another may be loaded side by side, and run, alone already.
pub fn worlds_may_run()
    ensures loadable { (headers : List Header) → IsLawful headers → AreLoadable headers }
    ensures run { (headers : List Header) → IsLawful headers → MayRun headers headers }
{}
