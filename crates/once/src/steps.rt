// The entry `step` of the once-only cells.
ghost use Rattle.std.specs.Prelude.{◌≡◌};
ghost use Rattle.once_spec.specs.Figure.{given};
ghost use Rattle.once_spec.specs.Entries.{once_after, once_stepped};

use crate::questions::ask_task;
use crate::turn::take_turn;
use cells_spec::Refusal;
use once_spec::{Agreement, OnceState};

// A busy task's next step: what its call agreed on, where that ends it.
pub fn step(s: &mut OnceState, task: u32) -> Result<Option<Agreement>, Refusal>
    ensures { once_after s.new (given result) ≡ once_stepped s.old task }
{
    ask_task(s, task)?;
    // Only now is there an offer to ask about.
    let t = task as usize;
    if s.offers[t].line == 0 {
        return Err(Refusal::Idle);
    }
    let k = s.offers[t].cell as usize;
    Ok(take_turn(task, &mut s.offers[t], &mut s.words[k]))
}
