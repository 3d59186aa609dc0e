// The stored counts, as a task's record and its cell's block change. No entries, but for callers that have proved that nothing is taken
// below 0 or added above 255.
ghost use Rattle.std.specs.Prelude.{◌≡◌, get_or, ◌<◌};
ghost use Rattle.cells_spec.specs.StoredCounts.{less, released, renamed, recounted, MayRename, Named, Countable};

use cells_questions::{claim, count, is_holding, is_taking};
use figure_lines::Record;

fn discount(counts: &mut [u8; 128], b: u32)
    requires { (b < 128) × (0 < get_or counts.old b 0) }
    ensures { counts.new ≡ less counts.old b }
{
    counts[b as usize] -= 1;
}

// What a record names is no longer used.
// Stays (2): it takes what `claim` adds; one function with a sign would be no plainer.
pub fn release(counts: &mut [u8; 128], r: Record)
    requires { Named counts.old r }
    ensures { counts.new ≡ released counts.old r }
{
    if is_holding(r) {
        discount(counts, r.held);
    }
    if is_taking(r) {
        discount(counts, r.taken);
    }
}

fn rename(counts: &mut [u8; 128], c: u32, d: u32)
    requires { MayRename counts.old c d }
    ensures { counts.new ≡ renamed counts.old c d }
{
    if c != d {
        discount(counts, c);
        count(counts, d);
    }
}

// A task's record r becomes q, and its cell's block c becomes d.
#[tactic(auto, unfolding(cells_spec::specs::StoredCounts::recounted))]
pub fn recount(counts: &mut [u8; 128], r: Record, q: Record, c: u32, d: u32)
    requires { Countable counts.old r q c d }
    ensures { counts.new ≡ recounted counts.old r q c d }
{
    release(counts, r);
    claim(counts, q);
    rename(counts, c, d);
}
