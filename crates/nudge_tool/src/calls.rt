// The named call.
ghost use Rattle.std.specs.Prelude.{◌≡◌};
ghost use Rattle.cells_spec.specs.Machine.{pool as «machine»};
ghost use Rattle.history_spec.specs.History.{history};
ghost use Rattle.cells_theorems.specs.Reached.{Reached};
ghost use Rattle.nudge_spec.specs.Nudge.{at_place};
ghost use Rattle.session_engine.specs.Tool.{all_of};
ghost use Rattle.nudge_tool.specs.Calls.{calls, sought_of};

use crate::follower::Follower;
use cells_spec::State;
use figure_lines::Answer;
use session_engine::actions::Actions;

// The numbers of its begin and of its last step, and its answer.
#[derive(Clone, Copy)]
pub struct CallSummary {
    pub at: usize,
    pub last: usize,
    pub answer: Answer,
}

// The task's call with n finished before it. The pool is a copy, used up here.
// Stays (5): state, pool and actions are a tool's three arguments (`Tool::play`); a struct of them would be taken apart at once.
fn seek(
    first: State,
    pool: &mut [u32],
    actions: Actions<'_>,
    task: u32,
    n: u32,
) -> Option<CallSummary>
    requires { Reached first.tasks first.cells first pool.old }
    ensures { sought_of result ≡ at_place n (calls task 0 0 (history «machine» (first, pool.old) (all_of actions.entry))) }
{
    let mut follower = Follower {
        s: first,
        task,
        begun: 0,
    };
    let mut left = n;
    for i in 0..actions.len() {
        if let Some(answer) = follower.act(pool, i, actions.at(i)) {
            if left == 0 {
                return Some(CallSummary {
                    at: follower.begun,
                    last: i,
                    answer,
                });
            }
            left -= 1;
        }
    }
    None
}

// The task's call with n finished before it, sought on a copy of the pool.
// Stays (2): first_nudge copies the pool too; what runs on the copy, and its promise, are others.
pub fn find_call(
    first: State,
    pool: &[u32],
    actions: Actions<'_>,
    task: u32,
    n: u32,
) -> Option<CallSummary>
    requires { Reached first.tasks first.cells first pool.now }
    ensures { sought_of result ≡ at_place n (calls task 0 0 (history «machine» (first, pool.now) (all_of actions.entry))) }
{
    let mut room = [0; 640];
    let copy = &mut room[..pool.len()];
    copy.copy_from_slice(pool);
    seek(first, copy, actions, task, n)
}
