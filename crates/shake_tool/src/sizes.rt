// How large a session is drawn.
ghost use Rattle.std.specs.Prelude.{◌≡◌};
ghost use Rattle.std.proofs.Math.Option.{none};
ghost use Rattle.cells_spec.specs.Questions.{refusal};
ghost use Rattle.figure_lines.specs.Basics.{within};
ghost use Rattle.shake_spec.specs.Shaken.{shake_questions};

use crate::refusal::ShakeRefusal;
use cells_questions::{blocks_ok, cells_ok, tasks_ok};

// Sizes that no question refuses.
#[derive(Clone, Copy)]
pub struct Sizes {
    pub tasks: u32,
    pub cells: u32,
    pub blocks: u32,
    pub count: u32,
    ghost allowed: { refusal (shake_questions tasks cells blocks count) ≡ none },
}

impl Sizes {
    ghost use Rattle.shake_tool.specs.Asked.{Asked};

    // The questions, asked in their order.
    pub fn asked(tasks: u32, cells: u32, blocks: u32, count: u32) -> Result<Sizes, ShakeRefusal>
        ensures { Asked tasks cells blocks count result }
    {
        if !tasks_ok(tasks) {
            return Err(ShakeRefusal::Tasks);
        }
        if !cells_ok(cells) {
            return Err(ShakeRefusal::Cells);
        }
        if !blocks_ok(tasks, cells, blocks, 5 * blocks as usize) {
            return Err(ShakeRefusal::Blocks);
        }
        if !count_ok(count) {
            return Err(ShakeRefusal::Count);
        }
        Ok(Sizes {
            tasks,
            cells,
            blocks,
            count,
        })
    }
}

fn count_ok(count: u32) -> bool
    ensures { result ≡ within count 1 3000 }
{
    (1 <= count) & (count <= 3000)
}
