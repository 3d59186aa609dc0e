// How many times each block is used, counted into a table: no entries, but parts for callers that have proved that nothing overflows.
ghost use Rattle.std.specs.Prelude.{◌≡◌, ◌&&◌, not, get_or, length, replicate, ℕ, ◌≤◌, ◌<◌};
ghost use Rattle.figure_lines.specs.Record.{is_idle};
ghost use Rattle.cells_spec.specs.Questions.{holds, has_taken, names_of};
ghost use Rattle.cells_spec.specs.Counts.{more, claimed, Room};

use figure_lines::Record;

pub fn is_holding(r: Record) -> bool
    ensures { result ≡ not (is_idle r) && holds r }
{
    r.line != 0 && !matches!(r.line, 10 | 15)
}

pub fn is_taking(r: Record) -> bool
    ensures { result ≡ not (is_idle r) && has_taken r }
{
    matches!(r.line, 5..=8 | 30)
}

pub fn count(counts: &mut [u8; 128], b: u32)
    requires { (b < 128) × (get_or counts.old b 0 < 255) }
    ensures { counts.new ≡ more counts.old b }
{
    counts[b as usize] += 1;
}

// What a record names.
// Stays (2): `release` takes what this adds; one function with a sign would be no plainer.
pub fn claim(counts: &mut [u8; 128], r: Record)
    requires { Room counts.old r }
    ensures { counts.new ≡ claimed counts.old r }
{
    if is_holding(r) {
        count(counts, r.held);
    }
    if is_taking(r) {
        count(counts, r.taken);
    }
}

// What cells with these blocks name, into a table of zeros.
pub fn count_cells(table: &mut [u8; 128], current: &[u32])
    requires { (length current.now ≤ 16) × ((k : ℕ) → k < length current.now → get_or current.now k 0 < 128) × (table.old ≡ replicate 128 0) }
    ensures { (length table.new ≡ 128) × ((b : ℕ) → b < 128 → get_or table.new b 0 ≡ names_of current.now b (length current.now)) }
{
    for b in current {
        count(table, *b);
    }
}
