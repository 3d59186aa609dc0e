// Lines 10 to 12 of figure 2 on the pool: a read.
// Stays (5): as in runs.rt, a line is lent pool and record as two arguments.
ghost use Rattle.std.specs.Prelude.{ℕ, ◌≤◌, length};
ghost use Rattle.cells_spec.specs.LineRun.{followed, Does, Within};

use crate::follows::{answer_read, decide, hold, keep};
use crate::memory::load;
use figure_lines::{Field, Finished, Record};

pub fn read_line(pool: &[u32], r: &mut Record, current: u32) -> Option<Finished>
    requires within { Within (length pool.now) r.now }
    requires first { 10 ≤ r.now.line }
    requires last { r.now.line ≤ 12 }
    ensures { (t : ℕ) → Does pool.now pool.now r.entry.now (followed r.exit.now result) t current }
{
    match r.line {
        10 => hold(r, 11, current),
        11 => keep(r, 12, load(pool, r.held, Field::V)),
        _ => {
            if load(pool, r.held, Field::C) == 0 {
                answer_read(r, r.loaded)
            } else {
                decide(r, 13)
            }
        }
    }
}
