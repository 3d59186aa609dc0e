// What is noted beside the cells at each step, of the block that a task holds.
ghost use Rattle.std.specs.Prelude.{◌≡◌, false, ◌&&◌, List, ℕ, ◌+◌, ◌≤◌, ◌<◌, get_or, length, replicate};
ghost use Rattle.figure_lines.specs.Record.{record_at};
ghost use Rattle.cells_spec.specs.Answers.{answered, act_of};
ghost use Rattle.moments_tool.specs.Loop.{deed_meant, deed_of, notes_after, decides as «decidesOf», spreads as «spreadsOf»};
ghost use Rattle.moments_tool.specs.declared.sights.Own.{Own};
ghost use Rattle.moments_tool.specs.Notes.{slot as «slot_of», sight_in, holds_with, sight_of, notes_of, no_own, own_at};

use crate::made::Caller;
use crate::sights::{Deed, Own, Sight};
use cells_questions::is_holding;
use cells_spec::{Action, Refusal, State};
use figure_lines::records::NO_VALUE;
use figure_lines::{Finished, Record};
use std::marker::Model;

// A word of the pool, 0 beyond it.
// Stays (6): at is a place to read, no length.
fn word(pool: &[u32], at: usize) -> u32
    ensures { result ≡ get_or pool.now at 0 }
{
    pool.get(at).copied().unwrap_or(0)
}

pub fn see(pool: &[u32], r: Record, current: u32) -> Sight
    ensures { result ≡ sight_in pool.now r current }
{
    let h = is_holding(r);
    let at = 5 * r.held as usize;
    let c = word(pool, at + 2);
    let d = word(pool, at + 4);
    Sight {
        active: h & (c == 0),
        undecided: h & (d == NO_VALUE),
        current: h & (current == r.held),
        as_expected: h & (d == r.expected),
        as_new: h & (d == r.new),
    }
}

// The place of one of m; the first for a number that is none of them.
pub fn slot(n: u32, m: u32) -> usize
    ensures { result ≡ «slot_of» n m }
{
    if n < m { n as usize } else { 0 }
}

// What the task with that record sees.
pub fn see_cell(s: &State, pool: &[u32], r: Record) -> Sight
    requires { s.now.cells ≤ 16 }
    ensures { result ≡ sight_in pool.now r (get_or s.now.current («slot_of» r.cell s.now.cells) 0) }
{
    let k = slot(r.cell, s.cells);
    see(pool, r, s.current[k])
}

// The record q holds the block of the record r.
fn holds_with(q: Record, r: Record) -> bool
    ensures { result ≡ holds_with q r }
{
    is_holding(q) & ((q.cell == r.cell) & (q.held == r.held))
}

// The tasks that hold the block of the record r, where that is asked.
pub fn holders(s: &State, r: Record, asked: bool) -> [bool; 32]
    ensures by_index { (u : ℕ) → u < 32 → get_or result u false ≡ (asked && holds_with (record_at s.now.records u) r) }
    ensures result_len { length result ≡ 32 }
{
    let mut who = [false; 32];
    if asked {
        for (u, q) in s.records.iter().enumerate() {
            who[u] = holds_with(*q, r);
        }
    }
    who
}

// The notes of each task.
#[derive(Drop)]
pub struct Notes {
    own: [Own; 32],
}

impl Model for Notes {
    ghost Value = { List Own };

    ghost view = { λ n. n.own };

    ghost invariant = { λ n. length n.own ≡ 32 };
}

impl Notes {
    pub fn new() -> Notes
        ensures { result ≡ replicate 32 no_own }
    {
        let none = Own {
            loaded: 0,
            stored: 0,
            active: false,
            inactive: 0,
            decided: 0,
            replaced: 0,
        };
        Notes { own: [none; 32] }
    }

    pub fn own(&self, t: usize) -> Own
        requires { t < 32 }
        ensures { result ≡ own_at self.now t }
    {
        self.own[t]
    }

    // At action i, which did that to the caller's call. Who waits is kept apart.
    pub fn note(&mut self, d: Deed, c: Caller, who: &[bool; 32], i: u16)
        requires { length who.now ≡ 32 }
        ensures { notes_of (i + 1) self.new ≡ notes_after (deed_meant d) (notes_of i self.old) c.task (sight_of c.call.line c.call c.sight who.now) }
    {
        if !d.is_step() {
            return;
        }
        let line = c.call.line;
        let t = c.task as usize;
        self.own[t] = self.own[t].stepped(line, c.sight, i);
        if spreads(line, c.sight) {
            for (u, holds) in who.iter().enumerate() {
                if *holds {
                    self.own[u] = self.own[u].held(line, c.sight, i);
                }
            }
        }
    }
}

pub fn deed_of(a: Action, answer: Result<Option<Finished>, Refusal>) -> Deed
    ensures { deed_meant result ≡ deed_of (act_of a) (answered answer) }
{
    match (a, answer) {
        (Action::Step(_), Ok(None)) => Deed::Moved,
        (Action::Step(_), Ok(Some(f))) => Deed::Answered(f.answer),
        (Action::Drop(_), Ok(None)) => Deed::Dropped,
        _ => Deed::Nothing,
    }
}

// A step at that line decides the block.
pub fn decides(line: u32, x: Sight) -> bool
    ensures { result ≡ «decidesOf» line x }
{
    (line == 2) & x.undecided
}

// A step at that line notes something for everybody who holds the block.
pub fn spreads(line: u32, x: Sight) -> bool
    ensures { result ≡ «spreadsOf» line x }
{
    decides(line, x) | (((line == 27) & x.active) | ((line == 30) & x.current))
}
