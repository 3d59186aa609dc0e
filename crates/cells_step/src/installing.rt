// Lines 26, 27 and 30 of figure 2 on the pool: a swap's end.
// Stays (5): as in runs.rt, a line is lent pool and record as two arguments.
ghost use Rattle.std.specs.Prelude.{◌≡◌, List, ℕ, ◌+◌, ◌≤◌, length};
ghost use Rattle.std.proofs.Math.Option.{Option};
ghost use Rattle.cells_spec.specs.LineRun.{left, line_done, followed, Does, Within};

use crate::follows::{answer, decide};
use crate::memory::store;
use figure_lines::{Answer, Field, Finished, Record};

// Lines 28 and 29 are no steps: the deciding part and lines 4 to 8 do them.
pub fn end_line(pool: &mut [u32], r: &mut Record) -> Option<Finished>
    requires within { Within (length pool.old) r.now }
    requires first { 26 ≤ r.now.line }
    requires last { r.now.line ≤ 29 }
    ensures { (t c : ℕ) → Does pool.old pool.new r.entry.now (followed r.exit.now result) t c }
{
    match r.line {
        26 => {
            store(pool, r.held, Field::Y, 0);
            answer(r, Answer::Yes)
        }
        27 => {
            store(pool, r.held, Field::C, 1);
            decide(r, 28)
        }
        _ => None,
    }
}

// Line 30: the hardware CAS of the cell's block.
pub fn install(r: &mut Record, current: &mut u32) -> Option<Finished>
    requires hard { r.now.won + r.now.lost ≤ 3 }
    requires line { r.now.line ≡ 30 }
    ensures { (p : List ℕ) (t l : ℕ) (f : Option ℕ) → left p current.new l (followed r.exit.now result) ≡ line_done p t r.entry.now current.old l f }
{
    if *current == r.held {
        *current = r.taken;
        r.won += 1;
        answer(r, Answer::Yes)
    } else {
        r.lost += 1;
        answer(r, Answer::No)
    }
}
