// What question 6 asks of the adds.
ghost use Rattle.std.specs.Prelude.{◌≡◌, ◌&&◌, cond, leb, ◌+◌, ◌*◌, ◌≤◌};
ghost use Rattle.adds_spec.specs.Requests.{tries_ok};
ghost use Rattle.adds_spec.specs.Adding.{add_fit, adds_fit};

use adds_spec::{Add, AddingState};
use figure_lines::Record;

// Question 23; of an add under way, question 6 asks it too.
pub fn tries_ok(tries: u32) -> bool
    ensures { result ≡ tries_ok tries }
{
    (1..=8).contains(&tries)
}

// Won and lost may need more than 32 bits together.
fn few_counts(a: &Add, is_swap: bool) -> bool
    requires { a.now.failed ≤ 8 }
    ensures { result ≡ (leb a.now.steps (27 * a.now.failed + cond is_swap 6 0) && leb (a.now.won + a.now.lost) (4 * a.now.failed + cond is_swap 1 0)) }
{
    let (steps, attempts) = if is_swap { (6, 1) } else { (0, 0) };
    a.steps <= 27 * a.failed + steps
        && u64::from(a.won) + u64::from(a.lost) <= u64::from(4 * a.failed + attempts)
}

#[tactic(auto, unfolding(adds_spec::specs::Adding::add_fit))]
fn add_fit(a: &Add, r: &Record) -> bool
    ensures { result ≡ add_fit a.now r.now }
{
    if r.line == 0 || !a.is_under_way() {
        return true;
    }
    tries_ok(a.tries) && a.failed < a.tries && few_counts(a, r.kind == 2)
}

// A task beyond the records has no add.
pub fn adds_fit(s: &AddingState) -> bool
    ensures { result ≡ adds_fit s.now }
{
    let tasks = s.cells.tasks as usize;
    s.adds
        .iter()
        .zip(&s.cells.records)
        .take(tasks)
        .all(|(a, r)| add_fit(a, r))
}
