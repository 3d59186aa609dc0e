// The calls that are pending after the last action.
ghost use Rattle.std.specs.Prelude.{◌≡◌, ℕ, ◌+◌, ◌≤◌, ◌<◌, length};
ghost use Rattle.figure_lines.specs.Record.{record_at};
ghost use Rattle.moments_tool.specs.Notes.{notes_of};
ghost use Rattle.moments_tool.specs.Loop.{closing, Closing};

use crate::made::Caller;
use crate::marks::Marks;
use crate::notes::{Notes, see};
use cells_spec::State;

// Enters the words of the pending swaps that took effect.
// Stays (5): it is true of reached states alone; a State holds others too, of which question 6 asks.
pub fn close(marks: &mut Marks, s: &State, pool: &[u32], notes: &Notes)
    requires in_bounds { length marks.old + 32 ≤ 65567 }
    requires tasks_bound { (s.now.tasks ≤ 32) × ((t : ℕ) → t < s.now.tasks → (record_at s.now.records t).cell < 16) }
    ensures marks_after { marks.new ≡ closing (s.now, pool.now) (notes_of 0 notes.now) s.now.tasks marks.old }
    ensures closing { Closing (s.now, pool.now) (notes_of 0 notes.now) s.now.tasks }
{
    for t in 0..s.tasks as usize {
        let call = s.records[t];
        let sight = see(pool, call, 0);
        let own = notes.own(t);
        let task = t as u32;
        let caller = Caller {
            task,
            call,
            sight,
            own,
        };
        marks.enter(caller.standing());
    }
}
