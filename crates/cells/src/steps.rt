// The entry `step`.
ghost use Rattle.std.specs.Prelude.{◌≡◌};
ghost use Rattle.cells_spec.specs.Answers.{answered};
ghost use Rattle.cells_spec.specs.Open.{leaving};
ghost use Rattle.cells_spec.specs.Step.{stepped};

use crate::fit::step_fit;
use cells_questions::fitness::is_fit;
use cells_spec::{Refusal, State};
use figure_lines::Finished;

// A busy task's next line, and its call where the line ends it. Refused, state and pool are as they were.
// Stays (2): as at begin.
pub fn step(s: &mut State, pool: &mut [u32], task: u32) -> Result<Option<Finished>, Refusal>
    ensures { leaving s.new pool.new (answered result) ≡ stepped s.old pool.old task }
{
    if !is_fit(s, pool) {
        return Err(Refusal::Unfit);
    }
    step_fit(s, pool, task)
}
