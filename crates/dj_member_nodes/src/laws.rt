//! What holds of the expressions and statements that stand for instructions.

ghost use Rattle.dj_member_nodes.specs.Laws.{ConstantsKeepRules, NodesKeepRules, EffectsKeepRules, BirthsKeepRules};
ghost use Rattle.dj_member_nodes.specs.Together.{MethodsAreFormed};
ghost use Rattle.dj_member_nodes.specs.Suited.{SuitedOperandsFit};
ghost use Rattle.dj_member_nodes.specs.Showing.{FieldsStand, StaticsStand, CallsStand, StaticCallsStand, FieldWritesStand, StaticWritesStand, CastsStand, LengthsStand, ClassConstantsStand, LoneCallsStand, LoneStaticCallsStand};

/// The expressions and statements that stand for instructions keep the rules where their operands do.
pub fn nodes_keep_rules()
    ensures constants { ConstantsKeepRules }
    ensures nodes { NodesKeepRules }
    ensures effects { EffectsKeepRules }
    ensures births { BirthsKeepRules }
{}

/// The blocks of a method are rebuilt to formed trees, where no cause speaks against its instructions.
pub fn methods_are_formed()
    ensures formed { MethodsAreFormed }
{}

/// Expressions stand for reads of fields and for calls: they do what the instructions do, with operands that are tested.
pub fn nodes_show()
    ensures fields { FieldsStand }
    ensures statics { StaticsStand }
    ensures calls { CallsStand }
    ensures static_calls { StaticCallsStand }
    ensures writes { FieldWritesStand }
    ensures static_writes { StaticWritesStand }
    ensures casts { CastsStand }
    ensures lengths { LengthsStand }
    ensures class_constants { ClassConstantsStand }
    ensures lone_calls { LoneCallsStand }
    ensures lone_static_calls { LoneStaticCallsStand }
{}

/// The tests of operands pass where their static types suit what frames say of them, and that goes where types are wanted.
pub fn suited_operands_fit()
    ensures fit { SuitedOperandsFit }
{}
