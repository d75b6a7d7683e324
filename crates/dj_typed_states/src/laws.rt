//! What frames say of states.

ghost use Rattle.std.specs.Prelude.{List};
ghost use Rattle.dj_names.specs.declared.header.Header.{Header};
ghost use Rattle.dj_values.specs.Values.{Value};
ghost use Rattle.dj_instructions.specs.Instructions.{IsRising};
ghost use Rattle.dj_code.specs.MethodCode.{Code};
ghost use Rattle.dj_tags.specs.Goes.{Working, FrameGoes};
ghost use Rattle.dj_tags.specs.Laxly.{Laxly, Strictly};
ghost use Rattle.dj_loaded.specs.Loaded.{MayRun};
ghost use Rattle.dj_bytecode.specs.Machine.{Locals};
ghost use Rattle.dj_typed_states.specs.Facts.{AreKept, shapes, classes};
ghost use Rattle.dj_typed_states.specs.Held.{Describes};

/// Shapes are kept by the machine's relation over any headers, whatever classes run; and what is known by
/// the classes that run is kept by Java's, where these may run beside those of the headers.
pub fn facts_are_kept()
    ensures shapes { (world headers : List Header) (code : Code) → AreKept (Laxly world) headers code shapes }
    ensures classes { (world headers : List Header) (code : Code) → MayRun world headers → IsRising code.instructions
        → AreKept (Strictly world) headers code (classes headers code) }
{}

/// A state that a frame describes is described by each frame that it goes to, by the machine's
/// relation over any headers; and by classes, by Java's.
pub fn described_where_it_goes()
    ensures goes { (world : List Header) (code : Code) (from to : Working) (stack : List Value) (locals : Locals)
        → FrameGoes (Laxly world) from to → Describes shapes code from stack locals → Describes shapes code to stack locals }
    ensures classes { (world headers : List Header) (code : Code) → MayRun world headers → IsRising code.instructions
        → (from to : Working) (stack : List Value) (locals : Locals)
        → FrameGoes (Strictly world) from to → Describes (classes headers code) code from stack locals → Describes (classes headers code) code to stack locals }
{}
