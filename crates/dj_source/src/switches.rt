//! Where a switch leads (JLS 14.11).

ghost use Rattle.std.specs.Prelude.{◌≡◌};
ghost use Rattle.dj_syntax.specs.Trees.{view_groups};
ghost use Rattle.dj_meaning.specs.Statements as spec;

use dj_syntax::Group;

/// Whether two labels are one, None for `default`.
fn is_same_label(first: Option<i32>, second: Option<i32>) -> bool
    ensures same { result ≡ spec.is_same_label first second }
{
    match (first, second) {
        (None, None) => true,
        (Some(first), Some(second)) => first == second,
        (None, Some(_)) | (Some(_), None) => false,
    }
}

/// Whether a group has a label.
pub fn has_label(wanted: Option<i32>, labels: &[Option<i32>]) -> bool
    ensures has { result ≡ spec.has_label wanted labels.now }
{
    labels.iter().any(|label| is_same_label(wanted, *label))
}

/// Whether some group has a label.
fn is_labelled(wanted: Option<i32>, groups: &[Group]) -> bool
    ensures labelled { result ≡ spec.is_labelled wanted (view_groups groups.now) }
{
    for group in groups {
        if has_label(wanted, group.labels.as_slice()) {
            return true;
        }
    }
    false
}

/// The label that a number leads to: its own, or else `default`, or none.
pub fn label_for(groups: &[Group], number: i32) -> Option<Option<i32>>
    ensures label { result ≡ spec.label_for (view_groups groups.now) number }
{
    if is_labelled(Some(number), groups) {
        Some(Some(number))
    } else if is_labelled(None, groups) {
        Some(None)
    } else {
        None
    }
}
