//! What holds of the bodies that are printed.

ghost use Rattle.dj_decompiled.specs.Decompiled.{DecompiledBodiesShow};

/// The body that is printed of a method of one block, of which no cause is told, shows what the method's code shows, and is typed.
pub fn decompiled_bodies_show()
    ensures show { DecompiledBodiesShow }
{}
