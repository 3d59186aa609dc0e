// The entry `step_lent`: a step over a record that is lent.
ghost use Rattle.std.specs.Prelude.{◌≡◌};
ghost use Rattle.cells_spec.specs.Answers.{answered};
ghost use Rattle.cells_spec.specs.Open.{leaving};
ghost use Rattle.cells_spec.specs.Lent.{lent, stepped_lent};

use crate::steps::step;
use cells_spec::{Refusal, State};
use figure_lines::{Finished, Record};

// A step over the task's record, lent: it stands in place of the state's, and afterwards the two are equal. Refused,
// state, pool and record are as they were.
// Stays (2): its twin over the adds' state is in adding.rt, which says why.
pub fn step_lent(
    s: &mut State,
    pool: &mut [u32],
    task: u32,
    rec: &mut Record,
) -> Result<Option<Finished>, Refusal>
    ensures { lent (leaving s.new pool.new (answered result)) rec.exit.now ≡ stepped_lent s.old pool.old task rec.entry.now }
{
    let t = task as usize;
    // A task beyond the records has none, and is refused.
    let Some(&own) = s.records.get(t) else {
        return step(s, pool, task);
    };
    s.records[t] = *rec;
    match step(s, pool, task) {
        Ok(ended) => {
            *rec = s.records[t];
            Ok(ended)
        }
        Err(refusal) => {
            s.records[t] = own;
            Err(refusal)
        }
    }
}
