// The actions in their order, each finished call with its line, and the line of the sums after the last.
ghost use Rattle.std.specs.Prelude.{◌≡◌, ◌+◌, ◌≤◌, length};
ghost use Rattle.text.specs.Page.{Written};
ghost use Rattle.session_engine.specs.Tool.{Fresh, all_of};
ghost use Rattle.cells_spec.specs.Answers.{answered, act_of};
ghost use Rattle.cells_spec.specs.Events.{event_of};
ghost use Rattle.history_spec.specs.History.{untried};
ghost use Rattle.bus_spec.specs.Bus.{bus_calls, calls_text};
ghost use Rattle.bus_tool.specs.Structs.{times_of, sums_in};
ghost use Rattle.bus_tool.specs.Loop.{EndsWithin, added};

use crate::calls::Tally;
use crate::printing::{put_all, put_call};
use crate::ranges::Ranges;
use cells_spec::{Action, Refusal, State};
use figure_lines::Finished;
use session_engine::actions::{Actions, task_of};
use session_engine::advance::advance;
use text::page::Page;

// What an action adds.
// Stays (5): how much room a function needs is its own number.
fn enter(
    page: &mut Page<'_>,
    ranges: Ranges,
    tally: &mut Tally,
    a: Action,
    answer: Result<Option<Finished>, Refusal>,
)
    requires in_bounds { page.old.at + 90 ≤ length page.old.bytes.now }
    requires totals_bound { (tally.old.totals.least ≤ 1376235000000) × (tally.old.totals.greatest ≤ 1376235000000) × EndsWithin tally.old.finished (act_of a) (event_of untried (answered answer)) }
    ensures written { (let x = added (times_of ranges) tally.old.finished (sums_in tally.old.totals) (act_of a) (event_of untried (answered answer)) in Written page.old page.new x.text × (sums_in tally.new.totals ≡ x.sums) × (tally.new.finished ≡ x.counts)) }
    ensures at_bound { page.new.at ≤ page.old.at + 31 }
{
    let Ok(Some(f)) = answer else {
        return;
    };
    let call = tally.enter(ranges, task_of(a), f);
    put_call(page, call);
}

// Every action, and the line of the sums. What is left in the pool is open: it is the session's own.
pub fn play(
    page: &mut Page<'_>,
    ranges: Ranges,
    first: State,
    pool: &mut [u32],
    actions: Actions<'_>,
)
    requires in_bounds { page.old.at + 2400000 ≤ length page.old.bytes.now }
    requires fresh { Fresh first pool.old }
    ensures { Written page.old page.new (calls_text (bus_calls (times_of ranges) (first, pool.old) (all_of actions.entry))) }
{
    let mut s = first;
    let mut tally = Tally::new();
    for i in 0..actions.len() {
        let a = actions.at(i);
        let answer = advance(&mut s, pool, a);
        enter(page, ranges, &mut tally, a, answer);
    }
    put_all(page, tally.totals);
}
