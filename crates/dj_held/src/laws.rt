//! What holds of expressions that keep the rules.

ghost use Rattle.dj_held.specs.Laws.{TypedExpressionsHold};

/// Where control comes to an expression that keeps the rules, with variables of their types, of which
/// those that count as assigned have values, the run of the expression gives a value of its type, or throws an exception, or is cut.
pub fn typed_expressions_hold()
    ensures holds { TypedExpressionsHold }
{}
