// The questions of an open, asked in their order: the first that is answered no refuses.
ghost use Rattle.std.specs.Prelude.{◌≡◌};
ghost use Rattle.cells_spec.specs.Answers.{asked};
ghost use Rattle.cells_spec.specs.Questions.{refusal, has_none, open_questions};

use crate::sizes::{blocks_ok, cells_ok, tasks_ok};
use cells_spec::Refusal;
use figure_lines::records::NO_VALUE;

fn has_none(values: &[u32]) -> bool
    ensures { result ≡ has_none values.now }
{
    values.contains(&NO_VALUE)
}

#[tactic(auto, unfolding(cells_spec::specs::Questions::open_questions))]
pub fn open_questions(
    words: usize,
    tasks: u32,
    cells: u32,
    blocks: u32,
    values: &[u32],
) -> Result<(), Refusal>
    ensures { asked result ≡ refusal (open_questions words tasks cells blocks values.now) }
{
    if !tasks_ok(tasks) {
        return Err(Refusal::Tasks);
    }
    if !cells_ok(cells) {
        return Err(Refusal::Cells);
    }
    if !blocks_ok(tasks, cells, blocks, words) {
        return Err(Refusal::Blocks);
    }
    if values.len() != cells as usize {
        return Err(Refusal::ValueCount);
    }
    if has_none(values) {
        return Err(Refusal::NoneAmongValues);
    }
    Ok(())
}
