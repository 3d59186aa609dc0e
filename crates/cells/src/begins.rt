// The entries `begin_read` and `begin_swap`. Refused, the state is as it was.
ghost use Rattle.std.specs.Prelude.{◌≡◌};
ghost use Rattle.cells_spec.specs.Answers.{acted};
ghost use Rattle.cells_spec.specs.Open.{leaving};
ghost use Rattle.cells_spec.specs.Begin.{begun, read_begun, swap_begun};

use crate::fit::begin_fit;
use cells_questions::fitness::is_fit;
use cells_spec::{Refusal, State};
use figure_lines::Record;
use figure_lines::records::{first_read, first_swap};

// The task's call begins with the record q.
// Stays (2): question 6, then the action; three lines, and drop and step call others.
fn begin(s: &mut State, pool: &[u32], task: u32, q: Record) -> Result<(), Refusal>
    ensures { leaving s.new pool.now (acted result) ≡ begun s.old pool.now task q }
{
    if !is_fit(s, pool) {
        return Err(Refusal::Unfit);
    }
    begin_fit(s, task, q)
}

#[tactic(auto, unfolding(cells_spec::specs::Begin::begun, cells_spec::specs::Begin::read_begun))]
pub fn begin_read(s: &mut State, pool: &[u32], task: u32, cell: u32) -> Result<(), Refusal>
    ensures { leaving s.new pool.now (acted result) ≡ read_begun s.old pool.now task cell }
{
    begin(s, pool, task, first_read(cell))
}

#[tactic(auto, unfolding(cells_spec::specs::Begin::begun, cells_spec::specs::Begin::swap_begun))]
pub fn begin_swap(
    s: &mut State,
    pool: &[u32],
    task: u32,
    cell: u32,
    expected: u32,
    new: u32,
) -> Result<(), Refusal>
    ensures { leaving s.new pool.now (acted result) ≡ swap_begun s.old pool.now task cell expected new }
{
    begin(s, pool, task, first_swap(cell, expected, new))
}
