// A busy task's next line, given numbers only.
ghost use Rattle.std.specs.Prelude.{◌≡◌, length, Ok};
ghost use Rattle.figure_lines.specs.Basics.{option_of};
ghost use Rattle.cells_spec.specs.Memory.{There};
ghost use Rattle.cells_spec.specs.Answers.{answered};
ghost use Rattle.cells_spec.specs.Turn.{turned, turn, Ready};

use crate::runs::run;
use figure_lines::records::idle;
use figure_lines::{Finished, Record};

// What a turn leaves besides the pool; `current` is the block that the task's cell then names.
#[derive(Clone, Copy)]
pub struct Turn {
    pub record: Record,
    pub current: u32,
    pub last: u32,
    // The call, where this line ends it.
    pub ended: Option<Finished>,
}

// No entry: a step for callers that have proved what it needs.
pub fn take_turn(
    pool: &mut [u32],
    task: u32,
    r: Record,
    current: u32,
    last: u32,
    free: Option<u32>,
) -> Turn
    requires ready { Ready (length pool.old) r }
    requires there { There (length pool.old) (option_of free) }
    ensures { turned result.record result.current result.last pool.new (answered (Ok result.ended)) ≡ turn pool.old task r current last (option_of free) }
{
    let mut n = Turn {
        record: r,
        current,
        last,
        ended: None,
    };
    n.ended = make_move(pool, &mut n.record, task, &mut n.current, &mut n.last, free);
    n
}

// The same in the record's place, without a copy of it; it answers the call, where this line ends it.
pub fn make_move(
    pool: &mut [u32],
    r: &mut Record,
    task: u32,
    current: &mut u32,
    last: &mut u32,
    free: Option<u32>,
) -> Option<Finished>
    requires ready { Ready (length pool.old) r.now }
    requires there { There (length pool.old) (option_of free) }
    ensures { turned r.exit.now current.new last.new pool.new (answered (Ok result)) ≡ turn pool.old task r.entry.now current.old last.old (option_of free) }
{
    let ended = run(pool, r, task, current, last, free);
    if ended.is_some() {
        *r = idle();
    }
    ended
}
