// Drops of one task, one after the other.
use crate::print_answer;
use cells::{Record, State};
use figure_lines::records::idle;
use std::io::Result;

// The task's record, and how many times each block is used.
fn print_left(rt: &impl Print, s: &State, task: u32) -> Result<()> {
    if let Some(r) = s.records.get(task as usize) {
        let others = Record { line: 0, ..*r } != idle();
        print!(rt; " {} {}", r.line, u32::from(others))?;
    }
    for count in s.counts.iter().take(s.blocks as usize) {
        print!(rt; " {count}")?;
    }
    Ok(())
}

pub fn drops(rt: &impl Print, mut s: State, pool: &[u32], task: u32, count: u32) -> Result<()> {
    for _ in 0..count {
        let before = s;
        let answer = cells::drop(&mut s, pool, task);
        print_answer(rt, answer.and(Ok(None)), before == s)?;
        if answer.is_ok() {
            print_left(rt, &s, task)?;
        }
    }
    Ok(())
}
