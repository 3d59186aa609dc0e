// A busy task's next step on its cell: it changes the task's offer and the cell, and answers what the call agreed on, where
// that step ends it.
ghost use Rattle.std.specs.Prelude.{◌≡◌, ℕ, ◌≤◌};
ghost use Rattle.once_spec.specs.declared.OnceCell.{OnceCell};
ghost use Rattle.once_spec.specs.Figure.{idle_offer, made, stage_of, agree, stage_does, with_step, leaves};
ghost use Rattle.once.specs.Turns.{leaves_of};

use figure_lines::records::NO_VALUE;
use once_spec::{Agreement, Offer, OnceCell};

// The offer of a task without a call.
pub fn idle() -> Offer
    ensures { result ≡ idle_offer }
{
    Offer {
        line: 0,
        cell: 0,
        value: 0,
        steps: 0,
        tried: false,
    }
}

fn agree(r: &mut Offer, value: u32) -> Option<Agreement>
    ensures { (m : OnceCell) → leaves_of m r.new (made result) ≡ agree m r.old value }
{
    let agreement = Agreement {
        cell: r.cell,
        value,
        steps: r.steps,
        hard: u32::from(r.tried),
    };
    *r = idle();
    Some(agreement)
}

// Each step counts, and the hardware CAS where it is one.
fn count_step(r: &mut Offer)
    requires { r.old.steps ≤ 9 }
    ensures { r.new ≡ with_step r.old }
{
    r.steps += 1;
    r.tried |= r.line == 12;
}

// Stays (7): figure 1's own numbers of its lines, which the state holds.
pub fn take_turn(task: u32, r: &mut Offer, m: &mut OnceCell) -> Option<Agreement>
    requires { r.old.steps ≤ 9 }
    ensures { leaves_of m.new r.new (made result) ≡ leaves task r.old m.old }
{
    count_step(r);
    match r.line {
        1..=4 => split(task, r, m),
        5..=7 => win(r, m),
        8..=10 => lose(r, m),
        11..=13 => decide(r, m),
        _ => None,
    }
}

// The offers below have counted the step.

// Whoever finds Y false and then its own number in X wins.
fn split(task: u32, r: &mut Offer, m: &mut OnceCell) -> Option<Agreement>
    requires { (1 ≤ r.old.line) × (r.old.line ≤ 4) }
    ensures { leaves_of m.new r.new (made result) ≡ stage_does (stage_of r.old) task r.old m.old }
{
    match r.line {
        1 => {
            m.x = task;
            r.line = 2;
        }
        2 => r.line = if m.y == 0 { 3 } else { 8 },
        3 => {
            m.y = 1;
            r.line = 4;
        }
        _ => r.line = if m.x == task { 5 } else { 8 },
    }
    None
}

// Decides alone, unless it finds contention.
fn win(r: &mut Offer, m: &mut OnceCell) -> Option<Agreement>
    requires { (5 ≤ r.old.line) × (r.old.line ≤ 7) }
    ensures { (p : ℕ) → leaves_of m.new r.new (made result) ≡ stage_does (stage_of r.old) p r.old m.old }
{
    match r.line {
        5 => {
            m.v = r.value;
            r.line = 6;
            None
        }
        6 => {
            r.line = if m.c == 0 { 7 } else { 11 };
            None
        }
        _ => {
            m.d = r.value;
            agree(r, m.d)
        }
    }
}

// Says that there is contention, and takes over the winner's value where it stands.
fn lose(r: &mut Offer, m: &mut OnceCell) -> Option<Agreement>
    requires { (8 ≤ r.old.line) × (r.old.line ≤ 10) }
    ensures { (p : ℕ) → leaves_of m.new r.new (made result) ≡ stage_does (stage_of r.old) p r.old m.old }
{
    match r.line {
        8 => {
            m.c = 1;
            r.line = 9;
        }
        9 => r.line = if m.v == NO_VALUE { 11 } else { 10 },
        _ => {
            r.value = m.v;
            r.line = 11;
        }
    }
    None
}

// Answers D, which the hardware CAS sets where it is none.
fn decide(r: &mut Offer, m: &mut OnceCell) -> Option<Agreement>
    requires { (11 ≤ r.old.line) × (r.old.line ≤ 13) }
    ensures { (p : ℕ) → leaves_of m.new r.new (made result) ≡ stage_does (stage_of r.old) p r.old m.old }
{
    match r.line {
        11 => {
            if m.d == NO_VALUE {
                r.line = 12;
                None
            } else {
                agree(r, m.d)
            }
        }
        12 => {
            if m.d == NO_VALUE {
                m.d = r.value;
            }
            r.line = 13;
            None
        }
        _ => agree(r, m.d),
    }
}
