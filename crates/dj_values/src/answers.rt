//! The tests that a run makes of answers, and those that they are made of, decide what they test.

ghost use Rattle.std.specs.Prelude.{◌≡◌, ◌↔◌, ℕ, List, IsTrue};
ghost use Rattle.dj_names.specs.declared.header.Header.{Header};
ghost use Rattle.dj_names.specs.Types.{JType};
ghost use Rattle.dj_names.specs.Headers.{IsSubclass, Implements};
ghost use Rattle.dj_names.specs.Assignable.{IsSubtype};
ghost use Rattle.dj_values.specs.Values.{Value, Action, Answer};
ghost use Rattle.dj_values.specs.Fits.{IsValueOf};
ghost use Rattle.dj_values.specs.Answers.{FitsAction};
ghost use Rattle.dj_values.specs.Deciding.{is_name, is_subclass, implements, is_subtype, is_value_of, is_answer};

/// Whatever the headers are, each test passes exactly what it tests.
pub fn tests_decide()
    ensures name { (first second : List ℕ) → IsTrue (is_name first second) ↔ (first ≡ second) }
    ensures subclass { (headers : List Header) (lower upper : List ℕ)
        → IsTrue (is_subclass headers lower upper) ↔ IsSubclass headers lower upper }
    ensures implements { (headers : List Header) (lower upper : List ℕ)
        → IsTrue (implements headers lower upper) ↔ Implements headers lower upper }
    ensures subtype { (headers : List Header) (from to : JType)
        → IsTrue (is_subtype headers from to) ↔ IsSubtype headers from to }
    ensures value { (headers : List Header) (wanted : JType) (value : Value)
        → IsTrue (is_value_of headers wanted value) ↔ IsValueOf headers wanted value }
    ensures answer { (headers : List Header) (action : Action) (answer : Answer)
        → IsTrue (is_answer headers action answer) ↔ FitsAction headers action answer }
{}
