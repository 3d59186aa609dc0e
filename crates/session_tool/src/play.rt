// The actions in their order, each with its line, and what is printed after the last.
ghost use Rattle.std.specs.Prelude.{◌≡◌, not, eqb, count_by, ◌+◌, ◌*◌, ◌≤◌, length};
ghost use Rattle.text.specs.Page.{Written};
ghost use Rattle.cells_spec.specs.Answers.{answered, looked_at};
ghost use Rattle.cells_spec.specs.Events.{event_of};
ghost use Rattle.history_spec.specs.History.{untried};
ghost use Rattle.session_engine.specs.Tool.{Fresh, all_of};
ghost use Rattle.session_spec.specs.Lines.{event_line, FewDigits};
ghost use Rattle.session_spec.specs.Printed.{add_event, look_line, cell_lines, pending_tasks, end_text, played};
ghost use Rattle.session_tool.specs.Totals.{totals_of};
ghost use Rattle.session_tool.specs.Loop.{Few};

use crate::printing;
use cells_spec::{Refusal, State};
use figure_lines::{Finished, Record};
use session_engine::actions::{Actions, task_of};
use session_engine::advance::advance;
use text::page::Page;

// Finished calls, and their hardware CAS attempts.
#[derive(Clone, Copy)]
pub struct Tally {
    pub finished: u32,
    pub hard: u32,
}

impl Tally {
    // At most 65,535 calls, each of fewer than 100 hardware CAS attempts: no sum wraps.
    fn add(&mut self, answer: Result<Option<Finished>, Refusal>)
        requires { (self.old.finished ≤ 65535) × (self.old.hard ≤ 65535 * 100) × Few (event_of untried (answered answer)) }
        ensures result_value { totals_of self.new ≡ add_event (totals_of self.old) (event_of untried (answered answer)) }
        ensures finished_bound { (self.new.finished ≤ self.old.finished + 1) × (self.new.hard ≤ self.old.hard + 100) }
    {
        if let Ok(Some(f)) = answer {
            self.finished += 1;
            self.hard += f.won + f.lost;
        }
    }
}

// The action's line, where it has one.
fn report(page: &mut Page<'_>, i: u32, task: u32, answer: Result<Option<Finished>, Refusal>)
    requires { page.old.at + 78 ≤ length page.old.bytes.now }
    ensures written { Written page.old page.new (event_line i task (event_of untried (answered answer))) }
    ensures upper_bound { FewDigits task (event_of untried (answered answer)) → page.new.at ≤ page.old.at + 36 }
{
    match answer {
        Err(refusal) => printing::put_no(page, i, u32::from(refusal)),
        Ok(None) => {}
        Ok(Some(f)) => printing::put_done(page, task, f),
    }
}

// Stays (5): how much room a function needs is its own number.
fn put_look(page: &mut Page<'_>, k: u32, seen: Result<u32, Refusal>)
    requires { page.old.at + 67 ≤ length page.old.bytes.now }
    ensures written { Written page.old page.new (look_line k (looked_at seen)) }
    ensures upper_bound { page.new.at ≤ page.old.at + 67 }
{
    if let Ok(v) = seen {
        printing::put_cell(page, k, v);
    }
}

fn put_cells(page: &mut Page<'_>, s: &State, pool: &[u32])
    requires { page.old.at + 67 * s.now.cells ≤ length page.old.bytes.now }
    ensures written { Written page.old page.new (cell_lines s.now pool.now 0 s.now.cells) }
    ensures upper_bound { page.new.at ≤ page.old.at + 67 * s.now.cells }
{
    for k in 0..s.cells {
        put_look(page, k, cells::look(s, pool, k));
    }
}

fn busy(records: &[Record]) -> usize
    ensures { result ≡ count_by (λ r. not (eqb r.line 0)) records.now }
{
    records.iter().filter(|r| r.line != 0).count()
}

// How many tasks have a pending call.
fn pending(s: &State) -> u64
    requires { s.now.tasks ≤ 32 }
    ensures { result ≡ pending_tasks s.now 0 s.now.tasks }
{
    busy(&s.records[..s.tasks as usize]) as u64
}

fn finish(page: &mut Page<'_>, z: Tally, s: &State, pool: &[u32])
    requires tasks_bound { (s.now.tasks ≤ 32) × (s.now.cells ≤ 16) }
    requires in_bounds { page.old.at + 2000 ≤ length page.old.bytes.now }
    ensures { Written page.old page.new (end_text s.now.tasks s.now.cells (totals_of z) s.now pool.now) }
{
    put_cells(page, s, pool);
    printing::put_end(page, z.finished, pending(s), z.hard);
}

// Every action, and what is printed after the last. What is left in the pool is open: it is the session's own.
pub fn play(page: &mut Page<'_>, first: State, pool: &mut [u32], actions: Actions<'_>)
    requires in_bounds { page.old.at + 921000 ≤ length page.old.bytes.now }
    requires fresh { Fresh first pool.old }
    ensures { Written page.old page.new (played first.tasks first.cells (first, pool.old) (all_of actions.entry)) }
{
    let mut s = first;
    let mut z = Tally {
        finished: 0,
        hard: 0,
    };
    for i in 0..actions.len() {
        let a = actions.at(i);
        let answer = advance(&mut s, pool, a);
        report(page, i as u32, task_of(a), answer);
        z.add(answer);
    }
    finish(page, z, &s, pool);
}
