// Steps 32 tasks on 16 cells 60,000 times by a fixed random schedule, and prints one line of totals. bench/cells has the
// same loop in plain Rust.
#![tactic(auto)]

use cells::{Answer, Finished, Refusal, State};
use std::io;

#[derive(Drop)]
struct Schedule {
    seed: u32,
}

impl Schedule {
    fn next(&mut self) -> u32 {
        self.seed = self.seed.wrapping_mul(1664525).wrapping_add(1013904223);
        self.seed / 65536
    }
}

#[derive(Default, Drop)]
struct LoopTotals {
    finished: u32,
    yes: u32,
    steps: u32,
    won: u32,
    lost: u32,
    sum: u32,
    refused: u32,
}

fn add(total: &mut u32, n: u32) {
    *total = total.wrapping_add(n);
}

impl LoopTotals {
    fn count(&mut self, answer: Result<Option<Finished>, Refusal>) {
        match answer {
            Ok(None) => {}
            Ok(Some(f)) => self.count_finished(&f),
            Err(_) => add(&mut self.refused, 1),
        }
    }

    fn count_finished(&mut self, f: &Finished) {
        add(&mut self.finished, 1);
        add(&mut self.steps, f.steps);
        add(&mut self.won, f.won);
        add(&mut self.lost, f.lost);
        match f.answer {
            Answer::Value(v) => add(&mut self.sum, v),
            Answer::Yes => add(&mut self.yes, 1),
            Answer::No => {}
        }
    }
}

fn begin(s: &mut State, pool: &[u32], task: u32, schedule: &mut Schedule) -> Result<(), Refusal> {
    let is_read = schedule.next() % 2 == 0;
    let cell = schedule.next() % 16;
    if is_read {
        return cells::begin_read(s, pool, task, cell);
    }
    let expected = schedule.next() % 4;
    let new = schedule.next() % 4;
    cells::begin_swap(s, pool, task, cell, expected, new)
}

// A task without a call begins one.
fn turn(
    s: &mut State,
    pool: &mut [u32],
    schedule: &mut Schedule,
) -> Result<Option<Finished>, Refusal> {
    let task = schedule.next() % 32;
    if s.records[task as usize].line == 0 {
        begin(s, pool, task, schedule).and(Ok(None))
    } else {
        cells::step(s, pool, task)
    }
}

fn main(rt: HostRuntime) -> io::Result<()> {
    let mut pool = [0; 400];
    let mut state = cells::blank();
    let mut schedule = Schedule { seed: 1 };
    let mut totals = LoopTotals::default();
    let opened = cells::open(&mut state, &mut pool, 32, 16, 80, &[0; 16]);
    totals.count(opened.and(Ok(None)));
    for _ in 0..60000 {
        let answer = turn(&mut state, &mut pool, &mut schedule);
        totals.count(answer);
    }
    println!(rt;
        "{} {} {} {} {} {} {}",
        totals.finished,
        totals.yes,
        totals.steps,
        totals.won,
        totals.lost,
        totals.sum,
        totals.refused
    )
}
