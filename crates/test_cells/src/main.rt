// Hands the entries wrong numbers, unfit states and pools of another length, one fault at a time, and prints what each
// answers: 100 acted, 200 ended, else the number of the refusal, and ! if a refused entry did not leave state and pool as
// they were. Standard input has a case on each line: a letter and a number for each word that is not as in the plain case,
// then the name of the case. The letters stand for:
// - a .. f, of the state: tasks, cells, blocks, block last taken, blocks of cells 1 and 2; g: words of the pool
// - h: whose record is set; i .. s, of that record: line, wanted, kind, cell, expected, new, held, taken, steps, won, lost
// - t .. w, of the calls: task, cell, expected, new
// - x: how many values open is given, or 0 to try begin a read, begin a swap, step and look; y: the second value
// - z: a block, and Z after it: its stored count
// - L: so many steps are made over the record, lent: for each the record's line after it and the answer, of a finished call
//   also whether it was answered yes, its steps, and its hardware CAS won and lost
// - D: so many drops: for each the answer; after one that acted the line of the task's record, 0 if its other fields are 0,
//   and how many times each block is used
#![tactic(auto)]

mod cases;
mod drops;
mod lent_step;

use crate::cases::{CallNumbers, EntryCase};
use cells::{Finished, Refusal, State};
use figure_lines::records::NO_VALUE;
use program_io::report::read_all;
use std::io::Result;

// PRINTING

// Only a refusal must leave state and pool.
fn print_answer(
    rt: &impl Print,
    answer: std::result::Result<Option<Finished>, Refusal>,
    stayed: bool,
) -> Result<()> {
    match answer {
        Ok(None) => print!(rt; " 100"),
        Ok(Some(_)) => print!(rt; " 200"),
        Err(refusal) => {
            let mark = if stayed { "" } else { "!" };
            print!(rt; " {}{mark}", u32::from(refusal))
        }
    }
}

// Every bit of the sum stays, one place on.
fn sum(words: &[u32]) -> u32 {
    words
        .iter()
        .fold(0, |sum: u32, word| sum.rotate_left(1).wrapping_add(*word))
}

// A CASE

// Each entry is asked of the same state.
fn try_calls(rt: &impl Print, s: &State, pool: &mut [u32], c: &CallNumbers) -> Result<()> {
    let words = sum(pool);
    let mut after = *s;
    let answer = cells::begin_read(&mut after, pool, c.task, c.cell);
    print_answer(rt, answer.and(Ok(None)), after == *s)?;
    after = *s;
    let answer = cells::begin_swap(&mut after, pool, c.task, c.cell, c.expected, c.new);
    print_answer(rt, answer.and(Ok(None)), after == *s)?;
    after = *s;
    let answer = cells::step(&mut after, pool, c.task);
    print_answer(rt, answer, after == *s && sum(pool) == words)?;
    match cells::look(s, pool, c.cell) {
        Ok(value) => print!(rt; " shows {value}"),
        Err(refusal) => print!(rt; " no {}", u32::from(refusal)),
    }
}

fn try_open(rt: &impl Print, s: &State, pool: &mut [u32], values: &[u32]) -> Result<()> {
    let words = sum(pool);
    let mut after = *s;
    let answer = cells::open(&mut after, pool, s.tasks, s.cells, s.blocks, values);
    print_answer(rt, answer.and(Ok(None)), after == *s && sum(pool) == words)
}

// Of the values only the first so many are given.
fn try_case(rt: &impl Print, c: &EntryCase, pool: &mut [u32]) -> Result<()> {
    let s = c.state();
    if c.lent > 0 {
        return lent_step::steps(rt, s, pool, c.call.task, c.record, c.lent);
    }
    if c.drops > 0 {
        return drops::drops(rt, s, pool, c.call.task, c.drops);
    }
    if c.given == 0 {
        return try_calls(rt, &s, pool, &c.call);
    }
    match [5, c.second, 6].get(..c.given as usize) {
        Some(values) => try_open(rt, &s, pool, values),
        None => Ok(()),
    }
}

// The pool has nine blocks, as opening two cells with 5 and 6 leaves them.
fn run_case(rt: &impl Print, c: &EntryCase) -> Result<()> {
    let mut all = [0; 45];
    all[..10].copy_from_slice(&[255, 0, 0, 5, NO_VALUE, 255, 0, 0, 6, NO_VALUE]);
    if let Some(pool) = all.get_mut(..c.words as usize) {
        try_case(rt, c, pool)?;
    }
    print!(rt; "\n")
}

// READING

// After a colon comes the case's name, up to the end of its line.
fn run(rt: &impl Print, text: &[u8]) -> Result<()> {
    let mut c = EntryCase::plain();
    let mut letter = b'\n';
    let mut n: u32 = 0;
    for &byte in text {
        match (letter, byte) {
            (b':', b'\n') => {
                run_case(rt, &c)?;
                c = EntryCase::plain();
                letter = byte;
            }
            (b':', _) => rt.write_all(&[byte])?,
            (_, b'0'..=b'9') => {
                n = n.wrapping_mul(10).wrapping_add(u32::from(byte - b'0'));
                c.set(letter, n);
            }
            _ => {
                letter = byte;
                n = 0;
            }
        }
    }
    Ok(())
}

fn main(rt: HostRuntime) -> Result<()> {
    let mut text = [0; 65536];
    let read = read_all(
        &mut rt.stdin(),
        &mut text,
        b"standard input",
        &mut rt.stderr(),
    );
    let n = match read {
        Ok(n) => n,
        Err(cut) => cut.count,
    };
    run(&rt, &text[..n])
}
