// The actions in their order, the words that they make, and those of the pending swaps after the last.
ghost use Rattle.std.specs.Prelude.{◌≡◌, [], ◌+◌, ◌≤◌, length};
ghost use Rattle.session_engine.specs.Tool.{Fresh, all_of};
ghost use Rattle.text.specs.Page.{Written};
ghost use Rattle.moments_spec.specs.Printed.{moments_text};
ghost use Rattle.moments_tool.specs.Words.{Listed};
ghost use Rattle.moments_tool.specs.Loop.{all_marks};

use crate::calls::close;
use crate::made::Caller;
use crate::marks::Marks;
use crate::notes::{Notes, deed_of, holders, see_cell, slot, spreads};
use crate::words::put_marks;
use cells_spec::State;
use session_engine::actions::{Actions, task_of};
use session_engine::advance::advance;
use text::page::Page;

// Enters the words of a session. What is left in the pool is open: it is the session's own.
fn list_marks(marks: &mut Marks, first: State, pool: &mut [u32], actions: Actions<'_>)
    requires fresh { Fresh first pool.old }
    requires no_marks { marks.old ≡ [] }
    ensures { Listed marks.new (all_marks first.tasks (first, pool.old) (all_of actions.entry)) }
{
    let mut s = first;
    let mut notes = Notes::new();
    let mut waiting = [None; 16];
    for i in 0..actions.len() {
        let a = actions.at(i);
        let t = slot(task_of(a), s.tasks);
        let call = s.records[t];
        let sight = see_cell(&s, pool, call);
        let who = holders(&s, call, spreads(call.line, sight));
        let answer = advance(&mut s, pool, a);
        let d = deed_of(a, answer);
        let own = notes.own(t);
        let at = i as u16;
        let task = t as u32;
        let caller = Caller {
            task,
            call,
            sight,
            own,
        };
        let k = call.cell as usize;
        let w = waiting[k];
        marks.enter(caller.made(d, w, at));
        waiting[k] = caller.next_waiter(d, w);
        notes.note(d, caller, &who, at);
    }
    close(marks, &s, pool, &notes);
}

// The lines of a session's marks. What is left in the pool is open: it is the session's own.
pub fn play(page: &mut Page<'_>, first: State, pool: &mut [u32], actions: Actions<'_>)
    requires in_bounds { page.old.at + 2400000 ≤ length page.old.bytes.now }
    requires fresh { Fresh first pool.old }
    ensures { Written page.old page.new (moments_text first.tasks (first, pool.old) (all_of actions.entry)) }
{
    let mut marks = Marks::new();
    list_marks(&mut marks, first, pool, actions);
    put_marks(page, marks.words());
}
