// What is known of finished calls.
ghost use Rattle.std.specs.Prelude.{◌≡◌, ◌+◌, ◌≤◌, ◌<◌, get_or, set, replicate};
ghost use Rattle.figure_lines.specs.Answers.{result_of};
ghost use Rattle.cells_spec.specs.Events.{report_of};
ghost use Rattle.bus_spec.specs.Bus.{counts_of, timed as «timedOf», no_sums, longer as «longerOf», add_call};
ghost use Rattle.bus_tool.specs.Kinds.{kinds_of};
ghost use Rattle.bus_tool.specs.Structs.{times_of, call_of, longest_of, sums_in};

use crate::kinds::Kinds;
use crate::ranges::Ranges;
use cells_step::paths::row_of;
use figure_lines::Finished;

// A finished call: its task, how many of the task's calls finished before it, and its two totals before rounding.
#[derive(Clone, Copy)]
pub struct CallTime {
    pub task: u32,
    pub earlier: u32,
    pub least: u64,
    pub greatest: u64,
}

// No row has more than 21 accesses.
fn counts_of(f: Finished) -> Kinds
    ensures counts_value { kinds_of result ≡ counts_of (report_of (result_of f)) }
    ensures hardware_bound { result.load + result.store + result.hardware ≤ 21 }
{
    let none = Kinds {
        load: 0,
        store: 0,
        hardware: 0,
    };
    if (21 < f.won) | (21 < f.lost) {
        return none;
    }
    let hardware = f.won + f.lost;
    let Some((load, store)) = row_of(f.steps, hardware) else {
        return none;
    };
    Kinds {
        load,
        store,
        hardware,
    }
}

fn timed(ranges: Ranges, task: u32, earlier: u32, f: Finished) -> CallTime
    ensures { call_of result ≡ «timedOf» (times_of ranges) earlier (task, report_of (result_of f)) }
{
    let counts = counts_of(f);
    CallTime {
        task,
        earlier,
        least: ranges.low.total(counts),
        greatest: ranges.high.total(counts),
    }
}

// The call with the greater total, the first of equals.
fn longer(best: Option<CallTime>, c: CallTime) -> CallTime
    ensures { call_of result ≡ «longerOf» (longest_of best) (call_of c) }
{
    let Some(d) = best else {
        return c;
    };
    if d.greatest < c.greatest { c } else { d }
}

// The sums of all calls so far, and the call with the greatest total.
#[derive(Clone, Copy)]
pub struct BusTotals {
    pub least: u64,
    pub greatest: u64,
    pub longest: Option<CallTime>,
}

impl BusTotals {
    // The sums of a session have 64 bits.
    fn add(&mut self, c: CallTime)
        requires { (self.old.least + c.least ≤ 18446744073709551615) × (self.old.greatest + c.greatest ≤ 18446744073709551615) }
        ensures { sums_in self.new ≡ add_call (sums_in self.old) (call_of c) }
    {
        self.least += c.least;
        self.greatest += c.greatest;
        self.longest = Some(longer(self.longest, c));
    }
}

// How many calls each task has finished, and the totals.
#[derive(Drop)]
pub struct Tally {
    pub finished: [u32; 32],
    pub totals: BusTotals,
}

impl Tally {
    pub fn new() -> Tally
        ensures { (result.finished ≡ replicate 32 0) × (sums_in result.totals ≡ no_sums) }
    {
        Tally {
            finished: [0; 32],
            totals: BusTotals {
                least: 0,
                greatest: 0,
                longest: None,
            },
        }
    }

    // The task's call that finishes, entered.
    pub fn enter(&mut self, ranges: Ranges, task: u32, f: Finished) -> CallTime
        requires task_bound { (task < 32) × (get_or self.old.finished task 0 < 65535) }
        requires totals_bound { (self.old.totals.least ≤ 1376235000000) × (self.old.totals.greatest ≤ 1376235000000) }
        ensures call { call_of result ≡ «timedOf» (times_of ranges) (get_or self.old.finished task 0) (task, report_of (result_of f)) }
        ensures totals_after { sums_in self.new.totals ≡ add_call (sums_in self.old.totals) (call_of result) }
        ensures finished_after { self.new.finished ≡ set self.old.finished task (get_or self.old.finished task 0 + 1) }
    {
        let t = task as usize;
        let call = timed(ranges, task, self.finished[t], f);
        self.finished[t] += 1;
        self.totals.add(call);
        call
    }
}
