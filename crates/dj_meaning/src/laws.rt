//! What holds of each run of statements.

ghost use Rattle.std.specs.Prelude.{◌≡◌, ℕ, false, Option};
ghost use Rattle.dj_syntax.specs.declared.variable.Var.{Var};
ghost use Rattle.dj_syntax.specs.Trees.{Stm, Block, Stms};
ghost use Rattle.dj_values.specs.Values.{Value};
ghost use Rattle.dj_values.specs.Outcomes.{State};
ghost use Rattle.dj_meaning.specs.StaticTypes.{Context, Scope, is_same_variable};
ghost use Rattle.dj_meaning.specs.Runs.{Store, Meaning, with_value, with_store, map_state};
ghost use Rattle.dj_meaning.specs.Completions.{Completion};
ghost use Rattle.dj_meaning.specs.Declarations.{behind, joined};
ghost use Rattle.dj_meaning.specs.Variables.{EachInStms};
ghost use Rattle.dj_meaning.specs.Monitors.{HoldsStill};
ghost use Rattle.dj_meaning.specs.Ways.{all_ways, EndsSo};
ghost use Rattle.dj_meaning.specs.Meaning.{run_all, run_then, run_statements};
ghost use Rattle.dj_meaning.specs.Preserving.{Preserves, PreservesBody, Keeps};

/// Statements that complete, or leave by an exception, give back the monitors that they enter, anywhere and as those of a body.
/// This is said of the list of monitors that a run keeps: `holding` alone changes it, with each Enter and Exit that is shown.
pub fn monitors_are_given_back()
    ensures held { (context : Context) (scope : Scope) (bound : ℕ) (list : Stms) (state : State Store) → HoldsStill state.store.held (run_all context scope bound list state) }
    ensures of_body { (context : Context) (scope : Scope) (bound : ℕ) (list : Stms) (state : State Store) → HoldsStill state.store.held (run_statements context scope bound list state) }
{}

/// A run neither reads nor changes a variable that its statements don't name.
pub fn unnamed_variables_stay()
    ensures stays { (unnamed : Var) (found : Option Value) (context : Context) (scope : Scope) (bound : ℕ) (list : Stms) → EachInStms (λ variable. is_same_variable variable unnamed ≡ false) list
        → (state : State Store) → run_all context scope bound list (with_store (with_value unnamed found) state) ≡ map_state (with_store (with_value unnamed found)) (run_all context scope bound list state) }
    ensures of_body { (unnamed : Var) (found : Option Value) (context : Context) (scope : Scope) (bound : ℕ) (list : Stms) → EachInStms (λ variable. is_same_variable variable unnamed ≡ false) list
        → (state : State Store) → run_statements context scope bound list (with_store (with_value unnamed found) state) ≡ map_state (with_store (with_value unnamed found)) (run_statements context scope bound list state) }
{}

/// Statements complete only in the ways of their form.
pub fn statements_end_as_formed()
    ensures ways { (context : Context) (scope : Scope) (bound : ℕ) (list : Stms) (state : State Store) → EndsSo (all_ways list) (run_all context scope bound list state) }
    ensures of_body { (context : Context) (scope : Scope) (bound : ℕ) (list : Stms) (state : State Store) → EndsSo (all_ways list) (run_statements context scope bound list state) }
{}

/// Two lists run one behind the other, in the scope that the first one leaves.
pub fn lists_run_in_turn()
    ensures joined { (context : Context) (scope : Scope) (bound : ℕ) (first second : Stms) (next : Meaning Completion)
        → run_then context scope bound (joined first second) next ≡ run_then context scope bound first (run_then context (behind first scope) bound second next) }
{}

/// A statement preserves what it does itself, and rewrites one after another preserve it. Blocks keep what they do as the whole list of a body too.
pub fn rewrites_follow_one_another()
    ensures itself { (statement : Stm) → Preserves statement statement }
    ensures in_turn { (first second third : Stm) → Preserves first second → Preserves second third → Preserves first third }
    ensures body_itself { (list : Stms) → PreservesBody list list }
    ensures bodies_in_turn { (first second third : Stms) → PreservesBody first second → PreservesBody second third → PreservesBody first third }
    ensures kept { (statement : Stm) → Keeps statement statement }
    ensures kept_in_turn { (first second third : Stms) → Keeps (Block first) (Block second) → Keeps (Block second) (Block third) → Keeps (Block first) (Block third) }
{}
