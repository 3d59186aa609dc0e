// The calls of one task, followed through the actions.
ghost use Rattle.std.specs.Prelude.{◌≡◌, true};
ghost use Rattle.cells_spec.specs.Answers.{answered, act_of};
ghost use Rattle.cells_spec.specs.Events.{event_of};
ghost use Rattle.cells_spec.specs.Machine.{pool as «machine»};
ghost use Rattle.cells_spec.specs.Questions.{fit};
ghost use Rattle.history_spec.specs.History.{untried};
ghost use Rattle.nudge_tool.specs.Calls.{note_of, begun_by, begun_after, note_in};

use cells_spec::{Action, Refusal, State};
use figure_lines::{Answer, Finished};
use session_engine::actions::task_of;
use session_engine::advance::advance;

// The state between two actions, and the number of the action with which the task's call was begun, if it has one.
#[derive(Clone, Copy)]
pub struct Follower {
    pub s: State,
    pub task: u32,
    pub begun: usize,
}

impl Follower {
    // Does action i: what the task's call answers that it ends.
    pub fn act(&mut self, pool: &mut [u32], i: usize, a: Action) -> Option<Answer>
        requires { fit self.old.s pool.old ≡ true }
        ensures done { (self.new.s, pool.new) ≡ («machine» (self.old.s, pool.old) (act_of a)).0 }
        ensures noted { note_in self.new.begun result ≡ note_of self.old.task self.old.begun i (act_of a) («machine» (self.old.s, pool.old) (act_of a)).1 }
        ensures begun { self.new.begun ≡ begun_after (note_in self.new.begun result) self.old.begun }
        ensures task { self.new.task ≡ self.old.task }
    {
        let answer = advance(&mut self.s, pool, a);
        self.note(i, a, answer)
    }

    // Notes what action i led to.
    fn note(
        &mut self,
        i: usize,
        a: Action,
        answer: Result<Option<Finished>, Refusal>,
    ) -> Option<Answer>
        ensures noted { note_in self.new.begun result ≡ note_of self.old.task self.old.begun i (act_of a) (event_of untried (answered answer)) }
        ensures begun { self.new.begun ≡ begun_after (note_in self.new.begun result) self.old.begun }
        ensures same { (self.new.s ≡ self.old.s) × (self.new.task ≡ self.old.task) }
    {
        if task_of(a) != self.task {
            return None;
        }
        match answer {
            Err(_) => None,
            Ok(None) => {
                self.begun = begun_by(a, self.begun, i);
                None
            }
            Ok(Some(f)) => Some(f.answer),
        }
    }
}

// Stays (4): it chooses a number by the action, and converts nothing.
fn begun_by(a: Action, begun: usize, i: usize) -> usize
    ensures { result ≡ begun_by (act_of a) begun i }
{
    match a {
        Action::Read(..) | Action::Swap(..) => i,
        Action::Step(_) | Action::Drop(_) => begun,
    }
}
