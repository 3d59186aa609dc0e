// Finds the smallest nudge of a call of a session, and prints it.
#![tactic(auto)]

mod calls;
mod exchange;
mod follower;
mod moves;
mod printing;
mod refusal;
mod touching;
mod trial;

ghost use Rattle.std.specs.Prelude.{◌≡◌, ◌++◌, length, drop, refl};
ghost use Rattle.std.proofs.Common.{lit≤};
ghost use Rattle.io.specs.Counts.{IsPrefixLen};
ghost use Rattle.nudge_spec.specs.Nudge.{nudge_text};
ghost use Rattle.session_spec.specs.Tools.{tool_within};
ghost use Rattle.session_engine.specs.Start.{tool_start};
ghost use Rattle.session_engine.specs.Tool.{Fresh, all_of};
ghost use Rattle.nudge_tool.specs.Refusals.{answer_text};

use crate::calls::find_call;
use crate::exchange::first_nudge;
use crate::printing::put_nudge;
use crate::refusal::NudgeRefusal;
use cells_spec::State;
use session_engine::actions::Actions;
use session_engine::tool::{Tool, run_tool};
use text::page::Page;

// The task's call with n finished before it.
#[derive(Clone, Copy)]
struct Nudge {
    task: u32,
    n: u32,
}

impl Nudge {
    // The call's first nudge, if it has one.
    fn find(
        self,
        first: State,
        pool: &[u32],
        actions: Actions<'_>,
    ) -> Result<Option<usize>, NudgeRefusal>
        requires { Fresh first pool.now }
        ensures { answer_text result ≡ nudge_text self.task self.n first.tasks (first, pool.now) (all_of actions.entry) }
    {
        if 2000 < actions.len() {
            return Err(NudgeRefusal::TooManyActions);
        }
        let Some(call) = find_call(first, pool, actions, self.task, self.n) else {
            return Err(NudgeRefusal::NoSuchCall);
        };
        Ok(first_nudge(first, pool, actions, self.task, call))
    }
}

impl Tool for Nudge {
    ghost text = { λ t. tool_start (nudge_text t.task t.n) };

    ghost ROOM = { 67 };

    const ROOM: usize = 67;

    fn put_refused(&self, page: &mut Page<'_>, n: u32) {
        page.bad(n)
    }

    fn play(&self, page: &mut Page<'_>, first: State, pool: &mut [u32], actions: Actions<'_>) {
        match self.find(first, pool, actions) {
            Ok(found) => put_nudge(page, found),
            Err(refusal) => page.bad(u32::from(refusal)),
        }
    }

    ghost bad_alike = { λ t n. refl };

    ghost has_room = { lit≤ tt };
}

// Prints the smallest nudge of the task's call with n finished before it at the start of out, and returns its length; nothing where out has
// fewer than 67 bytes. The bytes after the text are as they were.
pub fn run_nudge(file: &[u8], task: u32, n: u32, out: &mut [u8]) -> usize
    ensures out_after { out.new ≡ tool_within 67 (nudge_text task n) (length out.old) file.now ++ drop result out.old }
    ensures value { result ≡ length (tool_within 67 (nudge_text task n) (length out.old) file.now) }
    ensures prefix_len { IsPrefixLen result out.new }
{
    run_tool(&Nudge { task, n }, file, out)
}
