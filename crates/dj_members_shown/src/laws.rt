//! What holds of instructions on members and the trees for them.

ghost use Rattle.std.specs.Prelude.{◌≡◌, List, map, true};
ghost use Rattle.dj_names.specs.declared.header.Header.{Header};
ghost use Rattle.dj_names.specs.Types.{JType, StaticType, Of};
ghost use Rattle.dj_kinds.specs.Choice.{Call};
ghost use Rattle.dj_meaning.specs.Members.{Members};
ghost use Rattle.dj_meaning.specs.Calls.{all_pairs, is_assignable, chosen};
ghost use Rattle.dj_members_shown.specs.Alone.{is_alone};
ghost use Rattle.dj_members_shown.specs.Laws.{ObjectCallsShow, PrivateOwnersAgree, StaticCallsShow, SuperCallsShow, DefaultCallsShow, BirthsShow, ConstructsShow, FieldReadsShow, FieldWritesShow, StaticReadsShow, StaticWritesShow, ElementReadsShow, ElementWritesShow, LengthsShow, NewArraysShow, CheckedCastsShow, InstancesShow, ClassConstantsShow, ThrowsShow, PushesShow, KeepsShow, ElementWritesKeep, CallsPush, CastsGo, CastsGoThroughObject, InstancesGoThroughObject, OperandsAreWanted, ReadsAreHeld, ElementsAreHeld, ResultsAreHeld, OperandsCanBeTested, PlainRootsStay, StrictTagsStay, MembersCanBeTold, MemberCausesCanBeTold, UpwardsMayBeCast, CastsKeepRules};
ghost use Rattle.dj_members_shown.specs.Found.{MeantIsFound};

/// Where no other method of the name and of as many parameters can be found, arguments that go to the
/// parameters choose the method that arguments of just these types choose.
pub fn arguments_choose_alike()
    ensures chosen { (world : List Header) (members : List Members) (call : Call) (types : List JType) → is_alone world members call.name call.class types ≡ true
        → all_pairs (is_assignable world) call.arguments types ≡ true
        → chosen world members call ≡ chosen world members (record { from = call.from; class = call.class; through = call.through; name = call.name; arguments = map Of types }) }
{}

/// A call that is built for an instruction that has its member in the world means what the
/// instruction does with the operands, whatever classes run besides.
pub fn calls_show()
    ensures object { ObjectCallsShow }
    ensures private { PrivateOwnersAgree }
    ensures static_one { StaticCallsShow }
    ensures above { SuperCallsShow }
    ensures default_one { DefaultCallsShow }
{}

/// So does the birth of an object, which is made before the arguments of its constructor are
/// evaluated, and a call of another constructor on `this`.
pub fn births_show()
    ensures births { BirthsShow }
    ensures constructs { ConstructsShow }
{}

/// So do reads and writes of fields and elements.
pub fn stores_show()
    ensures reads { FieldReadsShow }
    ensures writes { FieldWritesShow }
    ensures static_reads { StaticReadsShow }
    ensures static_writes { StaticWritesShow }
    ensures element_reads { ElementReadsShow }
    ensures elements { ElementWritesShow }
    ensures lengths { LengthsShow }
{}

/// So do new arrays, what names classes, and exceptions that are thrown.
pub fn classes_show()
    ensures arrays { NewArraysShow }
    ensures casts { CheckedCastsShow }
    ensures instances { InstancesShow }
    ensures constants { ClassConstantsShow }
    ensures throws { ThrowsShow }
{}

/// A strict instruction pushes what its operation gives, or leaves the stack.
pub fn pushes_show()
    ensures pushes { PushesShow }
    ensures keeps { KeepsShow }
    ensures elements { ElementWritesKeep }
    ensures calls { CallsPush }
{}

/// A cast to a type to which a frame's type goes by Java's rules leaves the value as it is.
pub fn casts_go()
    ensures goes { CastsGo }
    ensures casts { CastsGoThroughObject }
    ensures instances { InstancesGoThroughObject }
{}

/// What a frame that keeps Java's rules tells of an operand is what the laws above ask of it.
pub fn operands_are_wanted()
    ensures wanted { OperandsAreWanted }
{}

/// What instructions give is held strictly as the frames behind them say.
pub fn results_are_held()
    ensures reads { ReadsAreHeld }
    ensures elements { ElementsAreHeld }
    ensures results { ResultsAreHeld }
{}

/// Operands that are tested are what the laws ask, or their run is stuck.
pub fn operands_can_be_tested()
    ensures tested { OperandsCanBeTested }
{}

/// What frames say by Java's rules stays so where other classes run.
pub fn frames_say_types()
    ensures roots { PlainRootsStay }
    ensures tags { StrictTagsStay }
{}

/// Whether an instruction has its member can be told.
pub fn members_can_be_told()
    ensures told { MembersCanBeTold }
    ensures cause { MemberCausesCanBeTold }
{}

/// The casts that are written are ones that Java has, and what is cast keeps its rules.
pub fn casts_are_lawful()
    ensures upwards { UpwardsMayBeCast }
    ensures rules { CastsKeepRules }
{}

/// The method that a call means is the one that is found by its name and descriptor.
pub fn members_meant_are_found()
    ensures found { MeantIsFound }
{}
