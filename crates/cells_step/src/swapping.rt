// Lines 15 to 24 of figure 2 on the pool: a swap up to its store of V, and the load of C after it.
// Stays (5): as in runs.rt, a line is lent pool and record as two arguments.
ghost use Rattle.std.specs.Prelude.{◌≡◌, ℕ, ◌≤◌, length};
ghost use Rattle.figure_lines.specs.Lines.{l21, next_at};
ghost use Rattle.cells_spec.specs.LineRun.{followed, Does, Within};

use crate::follows::{answer, decide, goto, hold, keep};
use crate::memory::{load, store};
use figure_lines::{Answer, Field, Finished, Record};

// Stays (7): the figure's own line numbers (runs.rt).
pub fn swap_line(pool: &mut [u32], r: &mut Record, task: u32, current: u32) -> Option<Finished>
    requires within { Within (length pool.old) r.now }
    requires first { 15 ≤ r.now.line }
    requires last { r.now.line ≤ 24 }
    ensures { Does pool.old pool.new r.entry.now (followed r.exit.now result) task current }
{
    match r.line {
        15 => hold(r, 16, current),
        16 => {
            store(pool, r.held, Field::X, task);
            goto(r, 17)
        }
        17 => {
            if load(pool, r.held, Field::Y) == 0 {
                goto(r, 18)
            } else {
                goto(r, 27)
            }
        }
        18 => {
            store(pool, r.held, Field::Y, 1);
            goto(r, 19)
        }
        19 => {
            if load(pool, r.held, Field::X) == task {
                goto(r, 20)
            } else {
                goto(r, 27)
            }
        }
        20 => keep(r, 21, load(pool, r.held, Field::V)),
        21 => compared(r, load(pool, r.held, Field::C)),
        22 => {
            store(pool, r.held, Field::Y, 0);
            answer(r, Answer::No)
        }
        23 => {
            store(pool, r.held, Field::V, r.new);
            goto(r, 24)
        }
        _ => {
            if load(pool, r.held, Field::C) == 0 {
                goto(r, 26)
            } else {
                decide(r, 25)
            }
        }
    }
}

// Line 21, where C is v.
fn compared(r: &mut Record, v: u32) -> Option<Finished>
    ensures { (t : ℕ) → followed r.exit.now result ≡ next_at l21 t r.entry.now v }
{
    if v != 0 {
        decide(r, 28)
    } else if r.loaded == r.expected {
        goto(r, 23)
    } else {
        goto(r, 22)
    }
}
