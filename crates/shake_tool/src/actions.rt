// Each action drawn, its line printed, and the action done, so that the next draw finds who is busy.
ghost use Rattle.std.specs.Prelude.{◌≡◌, ◌+◌, ◌≤◌, map, length};
ghost use Rattle.text.specs.Page.{Written};
ghost use Rattle.history_spec.specs.History.{run};
ghost use Rattle.cells_spec.specs.Open.{leaving};
ghost use Rattle.cells_spec.specs.Machine.{does, pool as «machine»};
ghost use Rattle.session_spec.specs.Session.{act as «actForm»};
ghost use Rattle.session_spec.specs.Written.{form_line, form_lines};
ghost use Rattle.cells_spec.specs.Answers.{answered, act_of};
ghost use Rattle.shake_spec.specs.Actions.{drawn_actions, Short};

use crate::drawing::draw_action;
use crate::generator::Generator;
use crate::sizes::Sizes;
use cells_spec::{Action, Refusal, State};
use figure_lines::Finished;
use text::page::Page;

fn put_action(page: &mut Page<'_>, a: Action)
    requires short { Short (act_of a) }
    requires in_bounds { page.old.at + 17 ≤ length page.old.bytes.now }
    ensures written { Written page.old page.new (form_line («actForm» (act_of a))) }
    ensures upper_bound { page.new.at ≤ page.old.at + 17 }
{
    match a {
        Action::Read(t, k) => page.line(b"(read", &[u64::from(t), u64::from(k)]),
        Action::Swap(t, k, e, n) => {
            page.line(
                b"(swap",
                &[u64::from(t), u64::from(k), u64::from(e), u64::from(n)],
            )
        }
        Action::Step(t) => page.line(b"(step", &[u64::from(t)]),
        Action::Drop(t) => page.line(b"(drop", &[u64::from(t)]),
    }
}

// The library's entry for the action. Each asks question 6, so nothing need be known of the state.
fn act(s: &mut State, pool: &mut [u32], a: Action) -> Result<Option<Finished>, Refusal>
    ensures { leaving s.new pool.new (answered result) ≡ does s.old pool.old (act_of a) }
{
    match a {
        Action::Read(t, k) => cells::begin_read(s, pool, t, k)?,
        Action::Swap(t, k, e, n) => cells::begin_swap(s, pool, t, k, e, n)?,
        Action::Step(t) => return cells::step(s, pool, t),
        Action::Drop(t) => cells::drop(s, pool, t)?,
    }
    Ok(None)
}

// As many actions as are asked for, done and printed.
pub fn put_actions(page: &mut Page<'_>, s: &mut State, pool: &mut [u32], seed: u32, sizes: Sizes)
    requires in_bounds { page.old.at + 65000 ≤ length page.old.bytes.now }
    ensures written { Written page.old page.new (form_lines (map «actForm» (drawn_actions sizes.tasks sizes.cells sizes.count seed (s.old, pool.old)))) }
    ensures cells_after { (s.new, pool.new) ≡ run «machine» (s.old, pool.old) (drawn_actions sizes.tasks sizes.cells sizes.count seed (s.old, pool.old)) }
{
    let mut g = Generator { state: seed };
    for _i in 0..sizes.count {
        let a = draw_action(&mut g, s, sizes);
        put_action(page, a);
        let _ = act(s, pool, a);
    }
}
