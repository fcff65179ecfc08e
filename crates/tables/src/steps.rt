// The tables of N entries, N - 1 steps.
ghost use Rattle.std.specs.Prelude.{◌≡◌, ◌-◌, ◌≤◌, ◌<◌, ℕ, length, get_or};
ghost use Rattle.tables.specs.Tables.{atan_table, sine_table};
ghost use Rattle.tables.specs.Sizes.{most_steps};

// Fills `out` in place: each entry of the number of steps and its index.
fn fill<const N: usize, F: Fn(u64, usize) -> u16>(out: &mut [u16; N], entry_at: F)
    requires { (1 ≤ N) × ((i : ℕ) → i < N → F.pre entry_at (N - 1) i) }
    ensures { (length out.new ≡ N) × ((i : ℕ) → i < N → F.post entry_at (N - 1) i (get_or out.new i 0)) }
{
    let steps = N as u64 - 1;
    for (i, entry) in out.iter_mut().enumerate() {
        *entry = entry_at(steps, i);
    }
}

pub fn fill_atan<const N: usize>(out: &mut [u16; N])
    requires { (2 ≤ N) × (N - 1 ≤ most_steps) }
    ensures { out.new ≡ atan_table (N - 1) }
{
    fill(out, |steps, i| crate::atan_entry(steps, i as u64));
}

pub fn fill_sine<const N: usize>(out: &mut [u16; N])
    requires { (2 ≤ N) × (N - 1 ≤ most_steps) }
    ensures { out.new ≡ sine_table (N - 1) }
{
    fill(out, |steps, i| crate::sine_entry(steps, i as u64));
}

pub fn atan<const N: usize>() -> [u16; N]
    requires { (2 ≤ N) × (N - 1 ≤ most_steps) }
    ensures { result ≡ atan_table (N - 1) }
{
    let mut table = [0; N];
    fill_atan(&mut table);
    table
}

pub fn sine<const N: usize>() -> [u16; N]
    requires { (2 ≤ N) × (N - 1 ≤ most_steps) }
    ensures { result ≡ sine_table (N - 1) }
{
    let mut table = [0; N];
    fill_sine(&mut table);
    table
}
