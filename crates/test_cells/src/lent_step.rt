// Steps over a record that the caller keeps and lends.
ghost use Rattle.std.specs.Prelude.{◌≡◌};
ghost use Rattle.cells_spec.specs.Answers.{answered};
ghost use Rattle.cells_spec.specs.Open.{leaving};
ghost use Rattle.cells_spec.specs.Lent.{lent, stepped_lent};

use crate::{print_answer, sum};
use cells::{Answer, Finished, Record, Refusal, State};
use std::io;

// One step. A program's main promises nothing, so it is said here that the record is lent.
fn lend(
    s: &mut State,
    pool: &mut [u32],
    task: u32,
    kept: &mut Record,
) -> Result<Option<Finished>, Refusal>
    ensures { lent (leaving s.new pool.new (answered result)) kept.exit.now ≡ stepped_lent s.old pool.old task kept.entry.now }
{
    cells::step_lent(s, pool, task, kept)
}

pub fn steps(
    rt: &impl Print,
    mut s: State,
    pool: &mut [u32],
    task: u32,
    mut r: Record,
    count: u32,
) -> io::Result<()> {
    for _ in 0..count {
        let before = (s, r, sum(pool));
        let answer = lend(&mut s, pool, task, &mut r);
        print!(rt; " {}", r.line)?;
        print_answer(rt, answer, before == (s, r, sum(pool)))?;
        if let Ok(Some(f)) = answer {
            let yes = u32::from(f.answer == Answer::Yes);
            print!(rt; " {yes} {} {} {}", f.steps, f.won, f.lost)?;
        }
    }
    Ok(())
}
