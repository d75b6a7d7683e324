//! A count that rises by one and stays at its last value.
ghost use Rattle.std.specs.Prelude.{◌≡◌, ◌≤◌};
ghost use Rattle.dj_outer.specs.Count.{Rose, next_count};

pub(crate) fn raise(count: &mut u64)
    ensures next { count.new ≡ next_count count.old }
    ensures rose { Rose count.old count.new }
    ensures never_falls { count.old ≤ count.new }
{
    *count = count.saturating_add(1);
}
