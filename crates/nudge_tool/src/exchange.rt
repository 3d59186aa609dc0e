// The exchanges of neighbouring actions, tried one after the other, for the call that is named.
ghost use Rattle.std.specs.Prelude.{◌≡◌, length};
ghost use Rattle.cells_spec.specs.Machine.{pool as «machine»};
ghost use Rattle.history_spec.specs.History.{history};
ghost use Rattle.figure_lines.specs.Answers.{answer_of};
ghost use Rattle.figure_lines.specs.Basics.{option_of};
ghost use Rattle.nudge_spec.specs.Nudge.{nudges, earliest};
ghost use Rattle.session_engine.specs.Tool.{Fresh, all_of};
ghost use Rattle.nudge_tool.specs.Calls.{Summarizes, summary_of};

use crate::calls::CallSummary;
use crate::follower::Follower;
use crate::trial::try_exchange;
use cells_spec::State;
use session_engine::actions::Actions;

// The earliest exchange that nudges the task's finished call; none after its last step does. The pool is a copy, used up here.
fn try_each(
    first: State,
    pool: &mut [u32],
    actions: Actions<'_>,
    task: u32,
    call: CallSummary,
) -> Option<usize>
    requires fresh { Fresh first pool.old }
    requires summarizes { Summarizes (history «machine» (first, pool.old) (all_of actions)) task (summary_of call) }
    ensures { option_of result ≡ earliest (nudges (first, pool.old) (all_of actions.entry) call.at (answer_of call.answer)) 0 (length actions.entry.kept.now) }
{
    let mut before = Follower {
        s: first,
        task,
        begun: 0,
    };
    for i in 0..actions.len().saturating_sub(1) {
        if call.last < i {
            return None;
        }
        if try_exchange(&before, pool, actions, i, call) {
            return Some(i);
        }
        before.act(pool, i, actions.at(i));
    }
    None
}

// The earliest exchange that nudges the task's finished call, tried on a copy of the pool.
// Stays (2): as at find_call.
pub fn first_nudge(
    first: State,
    pool: &[u32],
    actions: Actions<'_>,
    task: u32,
    call: CallSummary,
) -> Option<usize>
    requires fresh { Fresh first pool.now }
    requires summarizes { Summarizes (history «machine» (first, pool.now) (all_of actions)) task (summary_of call) }
    ensures { option_of result ≡ earliest (nudges (first, pool.now) (all_of actions.entry) call.at (answer_of call.answer)) 0 (length actions.entry.kept.now) }
{
    let mut room = [0; 640];
    let copy = &mut room[..pool.len()];
    copy.copy_from_slice(pool);
    try_each(first, copy, actions, task, call)
}
