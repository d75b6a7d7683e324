//! What holds where an expression of a typed body is evaluated, and that its evaluation is never stuck.
//! It stands on `dj_typing` and `dj_conditions` for the rules on expressions, and on `dj_widened` for what stays true where other classes run.
//! The layer above uses the invariant of its definitions, and the lemmas on expressions; the law is `typed_expressions_hold`.
#![tactic(auto)]

mod laws;

pub use laws::typed_expressions_hold;
