//! What holds of the runs of typed code.

ghost use Rattle.std.specs.Prelude.{◌≢◌, ℕ, List, [], ◌∷◌};
ghost use Rattle.std.specs.List.{Contains};
ghost use Rattle.dj_names.specs.Assignable.{IsReference};
ghost use Rattle.dj_names.specs.Types.{JType, Class};
ghost use Rattle.dj_names.specs.declared.header.Header.{Header};
ghost use Rattle.dj_values.specs.Values.{RefValue, Value, Ref};
ghost use Rattle.dj_values.specs.Fits.{IsThrowable};
ghost use Rattle.dj_loaded.specs.Loaded.{HasCore, IsInstanceOf};
ghost use Rattle.dj_values.specs.Outcomes.{State};
ghost use Rattle.dj_instructions.specs.Instructions.{Instruction, Instructions};
ghost use Rattle.dj_class.specs.Described.{MethodOf, ClassOf};
ghost use Rattle.dj_code.specs.declared.method_code.Handler.{Handler};
ghost use Rattle.dj_code.specs.MethodCode.{Code, Typed};
ghost use Rattle.dj_code.specs.ReadCode.{SpellsCode};
ghost use Rattle.dj_tags.specs.Laxly.{Laxly, Strictly};
ghost use Rattle.dj_frames.specs.Frames.{Object};
ghost use Rattle.dj_effects.specs.Works.{Want, Of};
ghost use Rattle.dj_effects.specs.Operands.{AreWanted, HasOperands, under};
ghost use Rattle.dj_effects.specs.Rows.{work};
ghost use Rattle.dj_bytecode.specs.Machine.{Locals, local_slots, code_from, step_first, caught, pc_of, first_locals};
ghost use Rattle.dj_bytecode.specs.SameShows.{AreArgumentsOf};
ghost use Rattle.dj_verify.specs.Rules.{Covers, caught_class};
ghost use Rattle.dj_verify.specs.Verified.{IsTyped};
ghost use Rattle.dj_typed_states.specs.Facts.{IsThrown, shapes, classes};
ghost use Rattle.dj_typed_states.specs.Held.{Describes};
ghost use Rattle.dj_typed_states.specs.Wanted.{IsMeant, Meets, GoesAs};
ghost use Rattle.dj_sound.specs.States.{table_of, Stands, StepsWell, RunsStrictly};
ghost use Rattle.dj_sound.specs.Runs.{NeverGoesWrong};

/// A run of typed code stands where it begins: the frame at its place describes its state. From where it
/// stands a step isn't stuck, and where it leads, behind the instruction, at a target or at the handler
/// of what it throws, the run stands again. It is so whatever classes run, and whatever the answers. Where
/// an instruction stands in the range of a handler, its locals are as the handler's frame describes them.
pub fn typed_runs_stand()
    ensures begins { (world : List Header) (typed : Typed) → typed.code.instructions ≢ [] → IsTyped (Laxly world) world typed
        → (headers : List Header) (arguments : List Value) → AreArgumentsOf headers typed.code arguments
        → Stands shapes typed.code (table_of typed) typed.code.instructions [] (first_locals typed.code.max_locals arguments) }
    ensures steps { (world : List Header) (typed : Typed) → IsTyped (Laxly world) world typed
        → (headers : List Header) (rest : Instructions) (stack : List Value) (state : State Locals) → Stands shapes typed.code (table_of typed) rest stack state.store
        → StepsWell shapes typed.code (table_of typed) (caught headers typed.code (pc_of rest) (step_first headers local_slots typed.code rest stack state)) }
    ensures handlers { (world : List Header) (typed : Typed) → IsTyped (Laxly world) world typed
        → (first : ℕ × Instruction) (rest : Instructions) (stack : List Value) (locals : Locals) → Stands shapes typed.code (table_of typed) (first ∷ rest) stack locals
        → (handler : Handler) → Contains typed.code.handlers handler → Covers handler first.0 → (reference : RefValue) → IsReference reference.class
        → Stands shapes typed.code (table_of typed) (code_from handler.target typed.code.instructions) (Ref reference ∷ []) locals }
{}

/// So does a run of code that keeps Java's rules, by the classes that run: where these may run, with any
/// others, beside those of the world, each value under the tag of objects of a type is null or a reference
/// whose class goes to the type; an object that isn't constructed yet is of the class of its `new`, or of
/// the method's own; and what is thrown is an exception. And where a run stands the operands of the
/// instruction go, by Java's rules, to what it wants: so a cast there leaves them as they are.
pub fn strict_runs_stand()
    ensures begins { (world headers : List Header) (typed : Typed) → RunsStrictly world headers typed → typed.code.instructions ≢ []
        → (arguments : List Value) → AreArgumentsOf headers typed.code arguments
        → Stands (classes headers typed.code) typed.code (table_of typed) typed.code.instructions [] (first_locals typed.code.max_locals arguments) }
    ensures steps { (world headers : List Header) (typed : Typed) → RunsStrictly world headers typed
        → (rest : Instructions) (stack : List Value) (state : State Locals) → Stands (classes headers typed.code) typed.code (table_of typed) rest stack state.store
        → StepsWell (classes headers typed.code) typed.code (table_of typed) (caught headers typed.code (pc_of rest) (step_first headers local_slots typed.code rest stack state)) }
    ensures handlers { (world headers : List Header) (typed : Typed) → RunsStrictly world headers typed
        → (first : ℕ × Instruction) (rest : Instructions) (stack : List Value) (locals : Locals) → Stands (classes headers typed.code) typed.code (table_of typed) (first ∷ rest) stack locals
        → (handler : Handler) → Contains typed.code.handlers handler → Covers handler first.0 → (reference : RefValue) → IsInstanceOf headers (Class (caught_class handler.class)) reference
        → Stands (classes headers typed.code) typed.code (table_of typed) (code_from handler.target typed.code.instructions) (Ref reference ∷ []) locals }
    ensures operands { (world headers : List Header) (typed : Typed) → RunsStrictly world headers typed
        → (first : ℕ × Instruction) (rest : Instructions) (stack : List Value) (locals : Locals) → (stands : Stands (classes headers typed.code) typed.code (table_of typed) (first ∷ rest) stack locals)
        → HasOperands (Strictly world) world typed.code first.0 (work typed.code first.1) stands.frame }
    ensures wanted { (world headers : List Header) (typed : Typed) → RunsStrictly world headers typed
        → (rest : Instructions) (stack : List Value) (locals : Locals) → (stands : Stands (classes headers typed.code) typed.code (table_of typed) rest stack locals)
        → (wants : List Want) → AreWanted (Strictly world) wants stands.frame.stack → Meets (classes headers typed.code) wants (under wants stands.frame.stack) stack }
    ensures goes { (headers : List Header) (code : Code) (to : JType) (value : Value) → IsMeant (classes headers code) (Of (Object to)) value → GoesAs headers to value }
    ensures thrown { (world headers : List Header) (typed : Typed) → RunsStrictly world headers typed → HasCore world
        → (reference : RefValue) → IsThrown (classes headers typed.code) reference → IsThrowable headers reference }
    ensures shapes { (world headers : List Header) (typed : Typed) → RunsStrictly world headers typed
        → (rest : Instructions) (stack : List Value) (locals : Locals) → (stands : Stands (classes headers typed.code) typed.code (table_of typed) rest stack locals)
        → Describes shapes typed.code stands.frame stack locals }
{}

/// No run of code that has an instruction, and a table of frames over some headers, is stuck: whatever
/// classes run, those of the headers or others, from arguments that fit by them, whatever the answers,
/// at any number of steps. Code that is read from a class file has an instruction. Floats, doubles and
/// dynamic calls are no exception: before what the machine doesn't run a run goes on.
pub fn typed_code_never_goes_wrong()
    ensures never { (world : List Header) (typed : Typed) → typed.code.instructions ≢ [] → IsTyped (Laxly world) world typed
        → NeverGoesWrong typed.code }
    ensures read { (world : List Header) (class : ClassOf) (method : MethodOf) (typed : Typed) → SpellsCode class method typed.code
        → IsTyped (Laxly world) world typed → NeverGoesWrong typed.code }
{}
