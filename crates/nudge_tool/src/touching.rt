// Whether two actions touch the same cell.
ghost use Rattle.std.specs.Prelude.{◌≡◌, ◌≤◌};
ghost use Rattle.figure_lines.specs.Basics.{option_of};
ghost use Rattle.figure_lines.specs.Record.{record_at};
ghost use Rattle.cells_spec.specs.Answers.{act_of};
ghost use Rattle.nudge_tool.specs.Exchange.{touched_by, collides};

use cells_spec::{Action, State};
use session_engine::actions::task_of;

// Which cell an action touches. A begin touches none, nor does a drop, or a step that is refused.
fn touched_by(s: &State, a: Action) -> Option<u32>
    requires { s.now.tasks ≤ 32 }
    ensures { option_of result ≡ touched_by s.now.tasks (record_at s.now.records) (act_of a) }
{
    let Action::Step(task) = a else {
        return None;
    };
    if s.tasks <= task {
        return None;
    }
    let r = s.records[task as usize];
    if r.line == 0 { None } else { Some(r.cell) }
}

pub fn collide(s: &State, a: Action, b: Action) -> bool
    requires { s.now.tasks ≤ 32 }
    ensures { result ≡ collides s.now.tasks (record_at s.now.records) (act_of a) (act_of b) }
{
    if task_of(a) == task_of(b) {
        return false;
    }
    let cell = touched_by(s, a);
    cell.is_some() && cell == touched_by(s, b)
}
