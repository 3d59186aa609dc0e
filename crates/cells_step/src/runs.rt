// Each line of figure 2 on the pool: its access, and what follows.
ghost use Rattle.std.specs.Prelude.{◌≡◌, ◌+◌, ◌≤◌, length};
ghost use Rattle.figure_lines.specs.Basics.{option_of};
ghost use Rattle.cells_spec.specs.Memory.{There};
ghost use Rattle.cells_spec.specs.LineRun.{left, line_run, followed, Does, Within};
ghost use Rattle.cells_spec.specs.Turn.{Ready};

use crate::deciding::decide_line;
use crate::filling::{allocate, fill_line};
use crate::installing::{end_line, install};
use crate::reading::read_line;
use crate::swapping::swap_line;
use figure_lines::{Finished, Record};

// Each line counts as a step. Line 4 takes a block, and line 30 changes the cell's.
// Stays (5): `step` is lent pool and state as two arguments; a struct of both would be made for each line, and taken apart at once.
// Stays (7): as below, the figure's own line numbers.
pub fn run(
    pool: &mut [u32],
    r: &mut Record,
    task: u32,
    current: &mut u32,
    last: &mut u32,
    free: Option<u32>,
) -> Option<Finished>
    requires ready { Ready (length pool.old) r.now }
    requires there { There (length pool.old) (option_of free) }
    ensures { left pool.new current.new last.new (followed r.exit.now result) ≡ line_run pool.old task r.entry.now current.old last.old (option_of free) }
{
    r.steps += 1;
    match r.line {
        4 => allocate(pool, r, last, free),
        30 => install(r, current),
        _ => other_line(pool, r, task, *current),
    }
}

// Stays (7): figure 2 numbers its lines, the state holds that number, and a state that is handed in may hold any.
fn other_line(pool: &mut [u32], r: &mut Record, task: u32, current: u32) -> Option<Finished>
    requires within { Within (length pool.old) r.now }
    requires hard { r.now.won + r.now.lost ≤ 3 }
    requires not_4 { ¬ (r.now.line ≡ 4) }
    requires not_30 { ¬ (r.now.line ≡ 30) }
    ensures { Does pool.old pool.new r.entry.now (followed r.exit.now result) task current }
{
    match r.line {
        1..=3 => decide_line(pool, r),
        4..=8 => fill_line(pool, r),
        10..=12 => read_line(pool, r, current),
        15..=24 => swap_line(pool, r, task, current),
        26..=30 => end_line(pool, r),
        _ => None,
    }
}
