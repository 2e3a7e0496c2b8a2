// Copies place by place.
ghost use Rattle.std.specs.Prelude.{◌≡◌, ◌+◌, ◌≤◌, ◌++◌, length, take, drop};

// Copies the row that starts at byte `from` of a page.
pub fn keep_row(page: &[u8], from: usize, atoms: usize, last: &mut [u8])
    requires { (from + atoms ≤ length page.now) × (length last.old ≡ atoms) }
    ensures { last.new ≡ take atoms (drop from page.now) }
{
    last.copy_from_slice(&page[from..from + atoms]);
}

// Copies the counts of the first atoms; those behind them stay.
pub fn copy_counts(tallies: &[u32], atoms: usize, counts: &mut [u32])
    requires { (atoms ≤ length tallies.now) × (atoms ≤ length counts.old) }
    ensures { counts.new ≡
        take atoms tallies.now ++ drop atoms counts.old }
{
    counts[..atoms].copy_from_slice(&tallies[..atoms]);
}
