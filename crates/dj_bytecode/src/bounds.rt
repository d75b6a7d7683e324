//! What holds of the runs of a method's code at greater bounds.

ghost use Rattle.std.specs.Prelude.{ℕ, ◌≤◌, List};
ghost use Rattle.dj_names.specs.declared.header.Header.{Header};
ghost use Rattle.dj_values.specs.Values.{Value, Answer, IsBelow};
ghost use Rattle.dj_code.specs.MethodCode.{Code};
ghost use Rattle.dj_bytecode.specs.Machine.{bytecode_show};

/// A run of more steps shows what one of fewer shows, or goes on from it.
pub fn more_steps_show_more()
    ensures more { (headers : List Header) (code : Code) (arguments : List Value) (answers : List Answer) (steps more : ℕ) → steps ≤ more
        → IsBelow (bytecode_show headers code arguments answers steps) (bytecode_show headers code arguments answers more) }
{}
