// Whether a state is fit.
ghost use Rattle.std.specs.Prelude.{◌≡◌, cond, false, ◌&&◌, ◌||◌, not, eqb, ltb, leb, ◌+◌, ◌≤◌};
ghost use Rattle.std.specs.List.{list_all};
ghost use Rattle.cells_spec.specs.Questions.{tasks_ok, cells_ok, blocks_ok, reads, swaps, line_fit, has_taken, blocks_fit, values_fit, record_fit, cells_fit, fit};

use crate::counting::{claim, count_cells};
use crate::sizes::{blocks_ok, cells_ok, tasks_ok};
use cells_spec::State;
use figure_lines::Record;
use figure_lines::records::NO_VALUE;

fn is_read(r: &Record) -> bool
    ensures { result ≡ reads r.now }
{
    r.kind == 1 || (r.kind == 2 && r.expected == r.new)
}

fn is_swap(r: &Record) -> bool
    ensures { result ≡ swaps r.now }
{
    r.kind == 2 && r.expected != r.new
}

// In the deciding part: whether the call has the line that wanted the decision.
fn wanted_fit(r: &Record) -> bool
    ensures { result ≡ cond (eqb r.now.wanted 13) (reads r.now) (cond (eqb r.now.wanted 25) (swaps r.now) (cond (eqb r.now.wanted 28) (swaps r.now) false)) }
{
    match r.wanted {
        13 => is_read(r),
        25 | 28 => is_swap(r),
        _ => false,
    }
}

fn line_fit(r: &Record) -> bool
    ensures { result ≡ line_fit r.now }
{
    match r.line {
        1..=3 => wanted_fit(r),
        10..=12 => is_read(r),
        4..=8 | 15..=24 | 26..=27 | 30 => is_swap(r),
        _ => false,
    }
}

// Most numbers are below: the line is asked last.
fn taken_fit(r: &Record, blocks: u32) -> bool
    ensures { result ≡ (not (has_taken r.now) || ltb r.now.taken blocks) }
{
    r.taken < blocks || !matches!(r.line, 5..=8 | 30)
}

fn blocks_fit(r: &Record, blocks: u32) -> bool
    ensures { result ≡ blocks_fit r.now blocks }
{
    (r.held < blocks || matches!(r.line, 10 | 15)) && taken_fit(r, blocks)
}

fn values_fit(r: &Record) -> bool
    ensures { result ≡ values_fit r.now }
{
    r.kind == 1 || (r.expected != NO_VALUE && r.new != NO_VALUE)
}

// Their sum may need more than 32 bits.
fn few_attempts(r: &Record) -> bool
    ensures { result ≡ leb (r.now.won + r.now.lost) 3 }
{
    u64::from(r.won) + u64::from(r.lost) <= 3
}

// Idle records are many: they leave first.
#[tactic(auto, unfolding(cells_spec::specs::Questions::record_fit))]
fn record_fit(r: &Record, cells: u32, blocks: u32) -> bool
    ensures { result ≡ record_fit r.now cells blocks }
{
    if r.line == 0 {
        return true;
    }
    if cells <= r.cell || !line_fit(r) || !blocks_fit(r, blocks) {
        return false;
    }
    values_fit(r) && r.steps <= 20 && few_attempts(r)
}

fn sizes_fit(s: &State, words: usize) -> bool
    ensures { result ≡ tasks_ok s.now.tasks && (cells_ok s.now.cells && blocks_ok s.now.tasks s.now.cells s.now.blocks words) }
{
    tasks_ok(s.tasks) && cells_ok(s.cells) && blocks_ok(s.tasks, s.cells, s.blocks, words)
}

fn all_below(current: &[u32], blocks: u32) -> bool
    ensures { result ≡ list_all (λ b. ltb b blocks) current.now }
{
    current.iter().all(|b| *b < blocks)
}

// Stays (5): asked of states of which nothing is known, so no type can hold it.
fn cells_fit(s: &State) -> bool
    requires { s.now.cells ≤ 16 }
    ensures { result ≡ cells_fit s.now }
{
    all_below(&s.current[..s.cells as usize], s.blocks)
}

// On its way each record that fits is counted: one pass over the cells and one over the tasks give what the state's counts are compared with.
pub fn is_fit(s: &State, pool: &[u32]) -> bool
    ensures { result ≡ fit s.now pool.now }
{
    if !sizes_fit(s, pool.len()) {
        return false;
    }
    if s.blocks <= s.last || !cells_fit(s) {
        return false;
    }
    let mut table = [0; 128];
    count_cells(&mut table, &s.current[..s.cells as usize]);
    for r in &s.records[..s.tasks as usize] {
        if !record_fit(r, s.cells, s.blocks) {
            return false;
        }
        claim(&mut table, *r);
    }
    let n = s.blocks as usize;
    s.counts[..n] == table[..n]
}
