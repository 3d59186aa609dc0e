// The entry `open`.
ghost use Rattle.std.specs.Prelude.{◌≡◌, ◌*◌, ◌≤◌, length};
ghost use Rattle.cells_spec.specs.Answers.{acted};
ghost use Rattle.cells_spec.specs.Open.{filled, opened, leaving};

use crate::opening_state::open_state;
use cells_questions::open_refusals::open_questions;
use cells_spec::{Refusal, State};
use cells_step::fill;

// Block k gets the k-th value.
fn fill_blocks(pool: &mut [u32], values: &[u32])
    requires { (length values.now ≤ 16) × (5 * length values.now ≤ length pool.old) }
    ensures { pool.new ≡ filled pool.old values.now 0 }
{
    for (k, v) in values.iter().enumerate() {
        fill(pool, k as u32, *v);
    }
}

// Refused, state and pool are as they were.
// Stays (5): a struct of the three sizes would be made at each call, and taken apart at once.
pub fn open(
    s: &mut State,
    pool: &mut [u32],
    tasks: u32,
    cells: u32,
    blocks: u32,
    values: &[u32],
) -> Result<(), Refusal>
    ensures { leaving s.new pool.new (acted result) ≡ opened s.old pool.old tasks cells blocks values.now }
{
    open_questions(pool.len(), tasks, cells, blocks, values)?;
    pool.fill(0);
    fill_blocks(pool, values);
    *s = open_state(tasks, cells, blocks);
    Ok(())
}
