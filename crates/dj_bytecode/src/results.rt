//! What holds of the results of methods.

ghost use Rattle.std.specs.Prelude.{◌≡◌, ℤ, IsSome};
ghost use Rattle.dj_names.specs.Types.{JType};
ghost use Rattle.dj_values.specs.Values.{Int};
ghost use Rattle.dj_values.specs.Fits.{int_range};
ghost use Rattle.dj_meaning.specs.Conversions.{converted};
ghost use Rattle.dj_bytecode.specs.Operands.{narrowed};

/// An int that is returned becomes the same in the machine and in source, whichever type kept as an
/// int the result has: boolean, byte, char, short or int.
pub fn returns_agree()
    ensures agree { (result : JType) (number : ℤ) → IsSome (int_range result) → narrowed result number ≡ converted result (Int number) }
{}
