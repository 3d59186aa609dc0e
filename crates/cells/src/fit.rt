// The actions of a fit state: question 6 is not asked again. For the entries, and for whoever begins with what an opening left, which
// stays fit.
// Stays (5): fit speaks of state and pool, which `step` is lent as two arguments, so no type of the state alone can hold it.
ghost use Rattle.std.specs.Prelude.{◌≡◌, true, List, ℕ, ◌≤◌};
ghost use Rattle.cells_spec.specs.Answers.{acted, answered};
ghost use Rattle.cells_spec.specs.Questions.{fit};
ghost use Rattle.cells_spec.specs.Open.{leaving};
ghost use Rattle.cells_spec.specs.Begin.{begun, begun_unasked};
ghost use Rattle.cells_spec.specs.Drop.{dropped};
ghost use Rattle.cells_spec.specs.Step.{stepped};

use crate::recounting::{recount, release};
use cells_questions::refusals::{begin_questions, step_questions};
use cells_spec::{Refusal, State};
use cells_step::free_block::free_block;
use cells_step::turns::make_move;
use figure_lines::records::idle;
use figure_lines::{Finished, Record};

// The task's call begins with the record q.
pub fn begin_fit(s: &mut State, task: u32, q: Record) -> Result<(), Refusal>
    requires { s.old.tasks ≤ 32 }
    ensures of_a_fit_state { (p : List ℕ) → fit s.old p ≡ true → leaving s.new p (acted result) ≡ begun s.old p task q }
    ensures of_any_state { (p : List ℕ) → leaving s.new p (acted result) ≡ begun_unasked s.old p task q }
{
    if s.tasks <= task {
        return Err(Refusal::NoSuchTask);
    }
    let t = task as usize;
    begin_questions(true, s.tasks, s.cells, &s.records[t], task, &q)?;
    s.records[t] = q;
    Ok(())
}

// A busy task's next line.
pub fn step_fit(s: &mut State, pool: &mut [u32], task: u32) -> Result<Option<Finished>, Refusal>
    requires { fit s.old pool.old ≡ true }
    ensures { leaving s.new pool.new (answered result) ≡ stepped s.old pool.old task }
{
    if s.tasks <= task {
        return Err(Refusal::NoSuchTask);
    }
    let t = task as usize;
    let r = s.records[t];
    let free = free_block(&s.counts, s.blocks, s.last, r.line);
    step_questions(true, s.tasks, &r, task, free.is_some())?;
    let k = r.cell as usize;
    let c = s.current[k];
    let ended = make_move(
        pool,
        &mut s.records[t],
        task,
        &mut s.current[k],
        &mut s.last,
        free,
    );
    // The other lines change nothing that is counted.
    if ended.is_some() || matches!(r.line, 4 | 10 | 15) {
        recount(&mut s.counts, r, s.records[t], c, s.current[k]);
    }
    Ok(ended)
}

// A busy task's call is withdrawn: its record is idle, its blocks are released.
pub fn drop_fit(s: &mut State, task: u32) -> Result<(), Refusal>
    requires { (p : List ℕ) × (fit s.old p ≡ true) }
    ensures { (p : List ℕ) → fit s.old p ≡ true → leaving s.new p (acted result) ≡ dropped s.old p task }
{
    if s.tasks <= task {
        return Err(Refusal::NoSuchTask);
    }
    let t = task as usize;
    let r = s.records[t];
    // It needs no block.
    step_questions(true, s.tasks, &r, task, true)?;
    s.records[t] = idle();
    release(&mut s.counts, r);
    Ok(())
}
