// The entry `open` of the once-only cells.
ghost use Rattle.std.specs.Prelude.{◌≡◌};
ghost use Rattle.cells_spec.specs.Answers.{asked};
ghost use Rattle.cells_spec.specs.Questions.{refusal};
ghost use Rattle.once_spec.specs.Figure.{allowed};
ghost use Rattle.once_spec.specs.Questions.{fresh_cell, open_once};
ghost use Rattle.once_spec.specs.Entries.{once_after, once_opened};

use cells_questions::{cells_ok, tasks_ok};
use cells_spec::Refusal;
use figure_lines::records::NO_VALUE;
use once_spec::{OnceCell, OnceState};

fn ask(tasks: u32, cells: u32) -> Result<(), Refusal>
    ensures { asked result ≡ refusal (open_once tasks cells) }
{
    if !tasks_ok(tasks) {
        return Err(Refusal::Tasks);
    }
    if !cells_ok(cells) {
        return Err(Refusal::Cells);
    }
    Ok(())
}

// The cell that an opening leaves.
fn fresh_cell() -> OnceCell
    ensures { result ≡ fresh_cell }
{
    OnceCell {
        x: 255,
        y: 0,
        c: 0,
        v: NO_VALUE,
        d: NO_VALUE,
        offered: [false; 32],
    }
}

pub fn open(s: &mut OnceState, tasks: u32, cells: u32) -> Result<(), Refusal>
    ensures { once_after s.new (allowed result) ≡ once_opened s.old tasks cells }
{
    ask(tasks, cells)?;
    *s = OnceState {
        tasks,
        cells,
        words: [fresh_cell(); 16],
        offers: [crate::turn::idle(); 32],
    };
    Ok(())
}
