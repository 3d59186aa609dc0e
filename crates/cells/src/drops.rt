// The entry `drop`.
ghost use Rattle.std.specs.Prelude.{◌≡◌};
ghost use Rattle.cells_spec.specs.Answers.{acted};
ghost use Rattle.cells_spec.specs.Open.{leaving};
ghost use Rattle.cells_spec.specs.Drop.{dropped};

use crate::fit::drop_fit;
use cells_questions::fitness::is_fit;
use cells_spec::{Refusal, State};

// A busy task's call is withdrawn. Refused, the state is as it was.
// Stays (2): as at begin.
pub fn drop(s: &mut State, pool: &[u32], task: u32) -> Result<(), Refusal>
    ensures { leaving s.new pool.now (acted result) ≡ dropped s.old pool.now task }
{
    if !is_fit(s, pool) {
        return Err(Refusal::Unfit);
    }
    drop_fit(s, task)
}
