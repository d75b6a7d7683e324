//! What holds of runs by steps and by blocks.

ghost use Rattle.std.specs.Prelude.{ℕ, suc, ◌*◌, ◌≤◌, Bool, List, length};
ghost use Rattle.dj_names.specs.declared.header.Header.{Header};
ghost use Rattle.dj_values.specs.Values.{Value};
ghost use Rattle.dj_values.specs.Outcomes.{State, Below};
ghost use Rattle.dj_instructions.specs.Instructions.{Instructions};
ghost use Rattle.dj_code.specs.MethodCode.{Code};
ghost use Rattle.dj_bytecode.specs.Machine.{Slots, steps};
ghost use Rattle.dj_blocks.specs.Blocks.{blocks, entered};

/// A run of so many steps, begun anywhere in a block, is below one of more blocks.
pub fn steps_are_below_blocks<S>()
    ensures below { (headers : List Header) (slots : Slots S) (code : Code) (starts : ℕ → Bool) (bound more : ℕ) → bound ≤ more → (rest : Instructions) (stack : List Value) (state : State S)
        → Below (steps headers slots code bound rest stack state) (blocks headers slots code starts (suc more) rest stack state) }
{}

/// A run of so many blocks is below one of steps enough: as many for each block as the code has
/// instructions, and one more.
pub fn blocks_are_below_steps<S>()
    ensures below { (headers : List Header) (slots : Slots S) (code : Code) (starts : ℕ → Bool) (bound enough : ℕ) → bound * suc (length code.instructions) ≤ enough
        → (rest : Instructions) → length rest ≤ length code.instructions → (stack : List Value) (state : State S)
        → Below (blocks headers slots code starts bound rest stack state) (steps headers slots code enough rest stack state) }
{}

/// A run of so many steps comes before no instruction more often than that, and once more.
pub fn steps_enter_seldom<S>()
    ensures seldom { (headers : List Header) (slots : Slots S) (code : Code) (pc bound : ℕ) (rest : Instructions) (stack : List Value) (state : State S)
        → entered headers slots code pc bound rest stack state ≤ suc bound }
{}
