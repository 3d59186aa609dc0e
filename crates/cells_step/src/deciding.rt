// Lines 1 to 3 of figure 2 on the pool: the deciding part.
// Stays (5): as in runs.rt, a line is lent pool and record as two arguments.
ghost use Rattle.std.specs.Prelude.{◌≡◌, ◌||◌, eqb, ℕ, ◌+◌, ◌≤◌, length};
ghost use Rattle.figure_lines.specs.Lines.{l3, deciding, next_at};
ghost use Rattle.cells_spec.specs.LineRun.{followed, Does, Within};

use crate::follows::{answer, answer_read, decide, goto, keep};
use crate::memory::{decide_cas, load};
use figure_lines::{Answer, Field, Finished, Record};

pub fn decide_line(pool: &mut [u32], r: &mut Record) -> Option<Finished>
    requires within { Within (length pool.old) r.now }
    requires hard { r.now.won + r.now.lost ≤ 3 }
    requires first { 1 ≤ r.now.line }
    requires last { r.now.line ≤ 3 }
    ensures { (t c : ℕ) → Does pool.old pool.new r.entry.now (followed r.exit.now result) t c }
{
    if !wants(r.wanted) {
        return None;
    }
    match r.line {
        1 => keep(r, 2, load(pool, r.held, Field::V)),
        2 => {
            if decide_cas(pool, r.held, r.loaded) {
                r.won += 1;
            } else {
                r.lost += 1;
            }
            goto(r, 3)
        }
        _ => decided(r, load(pool, r.held, Field::D)),
    }
}

// The decision is v.
fn decided(r: &mut Record, v: u32) -> Option<Finished>
    ensures { (t : ℕ) → followed r.exit.now result ≡ next_at (deciding l3 r.entry.now.wanted) t r.entry.now v }
{
    match r.wanted {
        13 => answer_read(r, v),
        25 => {
            if v == r.new {
                answer(r, Answer::Yes)
            } else {
                decide(r, 28)
            }
        }
        28 => {
            if v == r.expected {
                goto(r, 4)
            } else {
                answer(r, Answer::No)
            }
        }
        _ => None,
    }
}

// Whether the line wants a decision.
fn wants(line: u32) -> bool
    ensures { result ≡ (eqb line 13 || (eqb line 25 || eqb line 28)) }
{
    matches!(line, 13 | 25 | 28)
}
