//! What holds of the words of expressions and statements, and of the texts of units, whatever they are.

ghost use Rattle.std.specs.Prelude.{◌≡◌, ◌++◌, ℕ, Bool, true, [], Some, codes};
ghost use Rattle.dj_syntax.specs.Items.{render};
ghost use Rattle.dj_syntax.specs.Trees.{CompilationUnit, Exp, Stms, stms_of};
ghost use Rattle.dj_syntax.specs.UnitText.{class_name, exp_items, full_names, helper_name, stms_items, unit_text};
ghost use Rattle.dj_syntax.specs.WellFormed.{AreWellFormedStms, IsHelperName, IsQualified, IsWellFormed, IsWellFormedExp};
ghost use Rattle.dj_grammar.specs.Readings.{Wanted, ended};
ghost use Rattle.dj_grammar.specs.Statements.{no_blocks, read_statements};
ghost use Rattle.dj_grammar.specs.Steps.{read_words};
ghost use Rattle.dj_tokens.specs.Words.{words};

/// What a well formed expression spells is read as that expression.
pub fn expressions_are_read()
    ensures read { (unit : CompilationUnit) (e : Exp) → IsWellFormedExp e → ended (read_words (Wanted []) (words (render (exp_items (full_names unit) e)))) ≡ Some (e, []) }
{}

/// What well formed statements spell, up to the brace behind them, is read as those statements.
pub fn statements_are_read()
    ensures read { (unit : CompilationUnit) (helper : Bool) (depth : ℕ) (list : Stms) → IsQualified (class_name unit) → (helper ≡ true → IsHelperName (helper_name unit.helper)) → AreWellFormedStms helper list → stms_of (read_statements no_blocks (words (render (stms_items (full_names unit) depth list) ++ codes "}"))).0 ≡ list }
{}

/// No two well formed units have one text.
pub fn units_have_one_text()
    ensures one_text { (first second : CompilationUnit) → IsWellFormed first → IsWellFormed second → unit_text first ≡ unit_text second → first ≡ second }
{}
