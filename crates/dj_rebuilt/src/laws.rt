//! What holds of the expressions that stand for instructions, and of the statements of a block.

ghost use Rattle.std.specs.Prelude.{◌≡◌, ℕ, Bool, List, [], Option, Some};
ghost use Rattle.dj_names.specs.Headers.{Name};
ghost use Rattle.dj_names.specs.Types.{JType, StaticType};
ghost use Rattle.dj_syntax.specs.declared.variable.Var.{Var};
ghost use Rattle.dj_syntax.specs.Trees.{Stms};
ghost use Rattle.dj_instructions.specs.Instructions.{Instruction, Instructions};
ghost use Rattle.dj_code.specs.MethodCode.{Code};
ghost use Rattle.dj_values.specs.Values.{Value};
ghost use Rattle.dj_values.specs.Outcomes.{Reply};
ghost use Rattle.dj_meaning.specs.Conversions.{converted};
ghost use Rattle.dj_meaning.specs.StaticTypes.{Context, Scope};
ghost use Rattle.dj_meaning.specs.Runs.{pure};
ghost use Rattle.dj_meaning.specs.Completions.{Normal};
ghost use Rattle.dj_meaning.specs.Meaning.{run_then};
ghost use Rattle.dj_bytecode.specs.Operands.{fitted};
ghost use Rattle.dj_bytecode.specs.Meanings.{Strict, meaning_of};
ghost use Rattle.dj_bytecode.specs.Machine.{local_slots};
ghost use Rattle.dj_blocks.specs.Blocks.{block};
ghost use Rattle.dj_rebuilding.specs.Pending.{Atom, Pending, Typed};
ghost use Rattle.dj_rebuilding.specs.Rest.{ShowsRest};
ghost use Rattle.dj_rebuilt.specs.Rebuilding.{Names, Ways, rebuilt};
ghost use Rattle.dj_rebuilt.specs.Located.{IsReady, AreNamed, AreNames, AllOwn, AllStandIn, Entries, LeavesAlike, NothingCaught, WaysHold};
ghost use Rattle.dj_rebuilt.specs.Known.{AreStrings, constant_of, own_nodes};
ghost use Rattle.dj_rebuilt.specs.Standing.{AreOperands, IsNoded, IsConstant, Within};
ghost use Rattle.dj_rebuilt.specs.Alike.{RebuiltAlike};

/// Constants, arithmetic, conversions and the comparison of longs do what the expressions do that stand for them, over any operands.
pub fn calculations_are_expressions()
    ensures constants { (context : Context) → AreStrings context.headers → (class : Name) (instruction : Instruction) (found : StaticType × Atom) → constant_of instruction ≡ Some found
        → (count : ℕ) (operation : List Value → Reply (Option Value)) → meaning_of context.headers class instruction ≡ Strict count operation → IsConstant context count operation found }
    ensures nodes { (context : Context) (class : Name) (instruction : Instruction) (operands : List Typed) (found : Typed) → own_nodes instruction operands ≡ Some found
        → (count : ℕ) (operation : List Value → Reply (Option Value)) → meaning_of context.headers class instruction ≡ Strict count operation
        → (n : ℕ) (scope : Scope) → AreOperands context n scope operands → IsNoded context n scope operation operands found }
{}

/// A value that the machine lets go into a type is there what source converts it to.
pub fn narrowing_is_conversion()
    ensures within { (type : JType) (value : Value) → Within (fitted type value) (converted type value) }
{}

/// The statements of a block, as they are rebuilt, show what its instructions show where nothing catches what it throws: whatever the run had come to,
/// from locals whose values the variables have, for every way in which it ends. Control leaves by the same way, where the variables have what the locals have.
pub fn blocks_are_rebuilt()
    ensures shows { (context : Context) (bound base most : ℕ) (scope : Scope) (owner : Var → ℕ) (code : Code) (starts : ℕ → Bool) (ways : Ways) (entries : Entries) → code.handlers ≡ [] → WaysHold context bound base most scope owner code starts ways entries
        → (code_left : Instructions) → AllStandIn code code_left → AllOwn base most scope owner ways code_left → (names : Names) → AreNames context base most scope owner names → (n : ℕ) (inner : Scope) (stack : List Pending) → IsReady context base scope n inner stack
        → (statements : Stms) → rebuilt context.headers code.class ways starts names n stack code_left ≡ Some statements
        → ShowsRest context NothingCaught (LeavesAlike context base most scope owner code entries) (AreNamed context most names) inner stack (block context.headers local_slots code starts code_left) (run_then context inner bound statements (pure Normal)) }
{}

/// The statements of a block are the same by whichever headers its instructions are looked at.
pub fn blocks_are_rebuilt_alike()
    ensures alike { RebuiltAlike }
{}
