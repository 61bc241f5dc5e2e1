ghost use Rattle.std.specs.Prelude.{◌≡◌, ◌<◌, ◌+◌, ◌^◌, ◌||◌, ℕ, max, length, get_or};
ghost use Rattle.quiet_core.specs.Rows.{blend};

/// Adds the numbers of another row, place by place.
pub(crate) fn add_row(into: &mut [u64], from: &[u64])
    requires width { length from.now ≡ length into.old }
    requires fits { (n : ℕ) → n < length into.old → get_or into.old n 0 + get_or from.now n 0 < 2 ^ 64 }
    ensures { into.new ≡ blend ◌+◌ into.old from.now }
{
    for n in 0..into.len() {
        into[n] += from[n];
    }
}

/// Raises each number to that of another row, where that is greater.
pub(crate) fn rise_row(into: &mut [u64], from: &[u64])
    requires { length from.now ≡ length into.old }
    ensures { into.new ≡ blend max into.old from.now }
{
    for n in 0..into.len() {
        into[n] = into[n].max(from[n]);
    }
}

/// Sets each mark that is set in another row.
pub(crate) fn join_row(into: &mut [bool], from: &[bool])
    requires { length from.now ≡ length into.old }
    ensures { into.new ≡ blend ◌||◌ into.old from.now }
{
    for n in 0..into.len() {
        into[n] |= from[n];
    }
}
