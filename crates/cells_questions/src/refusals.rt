// The questions of begin and step, asked in their order: the first that is answered no refuses. Of a state of which is known whether it is
// fit, and the task's record.
ghost use Rattle.std.specs.Prelude.{◌≡◌, ◌∷◌};
ghost use Rattle.cells_spec.specs.Answers.{asked};
ghost use Rattle.cells_spec.specs.Questions.{refusal, swap_questions, pool_step_questions};

use cells_spec::Refusal;
use figure_lines::Record;
use figure_lines::records::NO_VALUE;

// q is what the begin would put there. A read's two values are 0: question 10 lets it pass.
pub fn begin_questions(
    fits: bool,
    tasks: u32,
    cells: u32,
    r: &Record,
    task: u32,
    q: &Record,
) -> Result<(), Refusal>
    ensures { asked result ≡ refusal ((6, fits) ∷ swap_questions tasks cells r.now task q.now.cell q.now.expected q.now.new) }
{
    if !fits {
        return Err(Refusal::Unfit);
    }
    if tasks <= task {
        return Err(Refusal::NoSuchTask);
    }
    if cells <= q.cell {
        return Err(Refusal::NoSuchCell);
    }
    if r.line != 0 {
        return Err(Refusal::Busy);
    }
    if q.expected == NO_VALUE || q.new == NO_VALUE {
        Err(Refusal::ReservedValue)
    } else {
        Ok(())
    }
}

// found is whether a block is unused. Only line 4 needs one.
pub fn step_questions(
    fits: bool,
    tasks: u32,
    r: &Record,
    task: u32,
    found: bool,
) -> Result<(), Refusal>
    ensures { asked result ≡ refusal ((6, fits) ∷ pool_step_questions tasks r.now task found) }
{
    if !fits {
        return Err(Refusal::Unfit);
    }
    if tasks <= task {
        return Err(Refusal::NoSuchTask);
    }
    if r.line == 0 {
        return Err(Refusal::Idle);
    }
    if r.line == 4 && !found {
        return Err(Refusal::NoUnusedBlock);
    }
    Ok(())
}
