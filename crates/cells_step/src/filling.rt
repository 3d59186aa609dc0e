// Lines 4 to 8 of figure 2 on the pool: the words of a new block.
// Stays (5): as in runs.rt, a line is lent pool and record as two arguments.
ghost use Rattle.std.specs.Prelude.{◌≡◌, ℕ, ◌≤◌, length};
ghost use Rattle.figure_lines.specs.Basics.{option_of};
ghost use Rattle.cells_spec.specs.Memory.{There};
ghost use Rattle.cells_spec.specs.LineRun.{left, line_done, followed, Does, Within};

use crate::follows::{goto, take};
use crate::memory::{NO_TASK, store};
use figure_lines::records::NO_VALUE;
use figure_lines::{Field, Finished, Record};

// Line 4.
pub fn allocate(
    pool: &mut [u32],
    r: &mut Record,
    last: &mut u32,
    free: Option<u32>,
) -> Option<Finished>
    requires there { There (length pool.old) (option_of free) }
    requires line { r.now.line ≡ 4 }
    ensures { (t c : ℕ) → left pool.new c last.new (followed r.exit.now result) ≡ line_done pool.old t r.entry.now c last.old (option_of free) }
{
    match free {
        Some(b) => {
            store(pool, b, Field::X, NO_TASK);
            *last = b;
            take(r, 5, b)
        }
        None => take(r, 5, NO_VALUE),
    }
}

pub fn fill_line(pool: &mut [u32], r: &mut Record) -> Option<Finished>
    requires within { Within (length pool.old) r.now }
    requires first { 5 ≤ r.now.line }
    requires last { r.now.line ≤ 8 }
    ensures { (t c : ℕ) → Does pool.old pool.new r.entry.now (followed r.exit.now result) t c }
{
    match r.line {
        5 => {
            store(pool, r.taken, Field::Y, 0);
            goto(r, 6)
        }
        6 => {
            store(pool, r.taken, Field::C, 0);
            goto(r, 7)
        }
        7 => {
            store(pool, r.taken, Field::D, NO_VALUE);
            goto(r, 8)
        }
        _ => {
            store(pool, r.taken, Field::V, r.new);
            goto(r, 30)
        }
    }
}
