//! The order of catch clauses (JLS 14.21).

ghost use Rattle.std.specs.Prelude.{◌≡◌};
ghost use Rattle.dj_syntax.specs.Trees.{view_catches};
ghost use Rattle.dj_values.specs.Deciding.{is_subclass as is_below};
ghost use Rattle.dj_reach.specs.Reach.{are_in_order, takes_below};

use dj_headers::Headers;
use dj_names::ClassName;
use dj_syntax::Catch;

/// Whether a class is another or below it.
fn is_below(headers: &Headers, lower: &ClassName, upper: &ClassName) -> bool
    ensures below { result ≡ is_below headers.now lower.now upper.now }
{
    headers.is_subclass(lower, upper)
}

/// Whether one of these clauses takes this class or one below it.
fn takes_below(headers: &Headers, class: &ClassName, catches: &[Catch]) -> bool
    ensures takes { result ≡ takes_below headers.now class.now (view_catches catches.now) }
{
    for catch in catches {
        if is_below(headers, &catch.class, class) {
            return true;
        }
    }
    false
}

/// Whether no clause takes a class that an earlier one takes already.
pub fn are_in_order(headers: &Headers, catches: &[Catch]) -> bool
    ensures order { result ≡ are_in_order headers.now (view_catches catches.now) }
{
    let mut rest = catches;
    while let [first, others @ ..] = rest {
        if takes_below(headers, &first.class, others) {
            return false;
        }
        rest = others;
    }
    true
}
