// The actions drawn.
ghost use Rattle.std.specs.Prelude.{◌≡◌, ◌<◌};
ghost use Rattle.cells_spec.specs.Answers.{act_of};
ghost use Rattle.shake_spec.specs.Drawn.{drawn, drawn_begin, drawn_action};

use crate::generator::Generator;
use crate::sizes::Sizes;
use cells_spec::{Action, State};

// An idle task begins a call: kind, cell, and for a swap the expected and the new value.
fn draw_begin(g: &mut Generator, task: u32, cells: u32) -> Action
    requires { 0 < cells }
    ensures { drawn (act_of result) g.new.state ≡ drawn_begin task cells g.old.state }
{
    let kind = g.draw(2);
    let cell = g.draw(cells);
    if kind == 0 {
        return Action::Read(task, cell);
    }
    let expected = g.draw(4);
    let new = g.draw(4);
    Action::Swap(task, cell, expected, new)
}

// A busy task steps.
pub fn draw_action(g: &mut Generator, s: &State, sizes: Sizes) -> Action
    ensures { drawn (act_of result) g.new.state ≡ drawn_action sizes.tasks sizes.cells s.now g.old.state }
{
    let task = g.draw(sizes.tasks);
    let r = s.records[task as usize];
    if r.line == 0 {
        return draw_begin(g, task, sizes.cells);
    }
    Action::Step(task)
}
