// One exchange of neighbouring actions, tried.
ghost use Rattle.std.specs.Prelude.{◌≡◌, ◌+◌, ◌<◌, length, drop};
ghost use Rattle.cells_spec.specs.Machine.{pool as «machine»};
ghost use Rattle.history_spec.specs.History.{history};
ghost use Rattle.figure_lines.specs.Answers.{answer_of};
ghost use Rattle.nudge_spec.specs.Exchange.{exchanged, moved_to};
ghost use Rattle.nudge_spec.specs.Nudge.{same_answer, answers_still};
ghost use Rattle.cells_theorems.specs.Reached.{Reached};
ghost use Rattle.session_engine.specs.Tool.{all_of};
ghost use Rattle.nudge_tool.specs.Calls.{calls, answer_of_call};
ghost use Rattle.nudge_tool.specs.Exchange.{nudges_at};

use crate::calls::CallSummary;
use crate::follower::Follower;
use crate::moves::moved_to;
use crate::touching::collide;
use figure_lines::Answer;
use session_engine::actions::Actions;

// The definitions' test of two answers.
fn same_answer(a: Answer, b: Answer) -> bool
    ensures { result ≡ same_answer (answer_of a) (answer_of b) }
{
    a == b
}

// Whether the call, followed to where exchange i has its begin, still answers the same. The actions up to i have been done. The pool is a
// copy, used up here.
fn follow(
    before: Follower,
    pool: &mut [u32],
    actions: Actions<'_>,
    i: usize,
    call: CallSummary,
) -> bool
    requires reached { Reached before.s.tasks before.s.cells before.s pool.old }
    requires two { i + 1 < length actions.kept.now }
    ensures { result ≡ answers_still (answer_of call.answer) (answer_of_call (moved_to i call.at) (calls before.task before.begun i (history «machine» (before.s, pool.old) (drop i (exchanged i (all_of actions.entry)))))) }
{
    let target = moved_to(i, call.at);
    let mut follower = before;
    for j in i..actions.len() {
        if let Some(answer) = follower.act(pool, j, actions.at(moved_to(i, j))) {
            if follower.begun == target {
                return same_answer(call.answer, answer);
            }
        }
    }
    false
}

// Whether exchange i nudges the call, tried on a copy of the state before it. Actions that do not touch the same cell need no trial.
pub fn try_exchange(
    before: &Follower,
    pool: &[u32],
    actions: Actions<'_>,
    i: usize,
    call: CallSummary,
) -> bool
    requires reached { Reached before.now.s.tasks before.now.s.cells before.now.s pool.now }
    requires two { i + 1 < length actions.kept.now }
    ensures { result ≡ nudges_at (before.now.s, pool.now) (all_of actions.entry) before.now.task before.now.begun call.at (answer_of call.answer) i }
{
    if !collide(&before.s, actions.at(i), actions.at(i + 1)) {
        return false;
    }
    let mut room = [0; 640];
    let copy = &mut room[..pool.len()];
    copy.copy_from_slice(pool);
    !follow(*before, copy, actions, i, call)
}
