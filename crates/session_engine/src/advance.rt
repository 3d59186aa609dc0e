// One action on a state that is lent whole. Of a fit state, so question 6 is not asked: what an opening left stays fit.
ghost use Rattle.std.specs.Prelude.{◌≡◌, true};
ghost use Rattle.cells_spec.specs.Questions.{fit};
ghost use Rattle.cells_spec.specs.Answers.{answered, act_of};
ghost use Rattle.cells_spec.specs.Open.{leaving};
ghost use Rattle.cells_spec.specs.Machine.{does};

use cells::fit::{begin_fit, drop_fit, step_fit};
use cells_spec::{Action, Refusal, State};
use figure_lines::Finished;
use figure_lines::records::{first_read, first_swap};

#[tactic(auto, unfolding(cells_spec::specs::Begin::begun, cells_spec::specs::Begin::read_begun, cells_spec::specs::Begin::swap_begun))]
pub fn advance(s: &mut State, pool: &mut [u32], a: Action) -> Result<Option<Finished>, Refusal>
    requires { fit s.old pool.old ≡ true }
    ensures { leaving s.new pool.new (answered result) ≡ does s.old pool.old (act_of a) }
{
    match a {
        Action::Read(task, k) => begin_fit(s, task, first_read(k))?,
        Action::Swap(task, k, e, w) => begin_fit(s, task, first_swap(k, e, w))?,
        Action::Step(task) => return step_fit(s, pool, task),
        Action::Drop(task) => drop_fit(s, task)?,
    }
    Ok(None)
}
