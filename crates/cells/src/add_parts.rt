// A step that ends a read or swap of an add: its next read or swap begins at once, or the add is finished too.
ghost use Rattle.std.specs.Prelude.{◌≡◌, true, List, ℕ, ◌+◌, ◌≤◌, ◌<◌};
ghost use Rattle.figure_lines.specs.Record.{no_value};
ghost use Rattle.figure_lines.specs.Answers.{result_of};
ghost use Rattle.cells_spec.specs.Answers.{Ended};
ghost use Rattle.cells_spec.specs.Open.{leaving};
ghost use Rattle.cells_spec.specs.Events.{report_of};
ghost use Rattle.adds_spec.specs.Requests.{with_part, ahead, add_report_of};
ghost use Rattle.adds_spec.specs.Adding.{FinishesAdd, add_answer_of, ahead_of, finish_of, going_or_finish_of, adding_after, add_at, has_add, PartsFit, step_ends};

use adds_spec::{Add, AddAhead, AddEnd, AddVerdict, AddingEnd, AddingState};
use figure_lines::records::{NO_VALUE, first_read, first_swap};
use figure_lines::{Answer, Finished};

// With the counts of f, which ended, and so many swaps more that answered no.
fn with_part(a: &Add, f: &Finished, no: u32) -> Add
    requires { (a.now.failed + no ≤ 4294967295) × (a.now.steps + f.now.steps ≤ 4294967295) × (a.now.won + f.now.won ≤ 4294967295) × (a.now.lost + f.now.lost ≤ 4294967295) }
    ensures { result ≡ with_part a.now (report_of (result_of f.now)) no }
{
    Add {
        amount: a.amount,
        tries: a.tries,
        failed: a.failed + no,
        steps: a.steps + f.steps,
        won: a.won + f.won,
        lost: a.lost + f.lost,
    }
}

// Value and amount may sum to 33 bits.
// Stays (5): PartsFit is about two values, an add and the part that ends; both types also hold values of which it is false.
fn add_ahead(a: &Add, f: &Finished) -> AddAhead
    requires { PartsFit a.now (result_of f.now) }
    ensures { ahead_of f.now.cell result ≡ ahead no_value a.now (report_of (result_of f.now)) (result_of f.now).answer }
{
    match f.answer {
        Answer::Value(v) => {
            let sum = u64::from(v) + u64::from(a.amount);
            if sum < u64::from(NO_VALUE) {
                AddAhead::NextSwap(v, sum as u32, with_part(a, f, 0))
            } else {
                AddAhead::LastPart(AddVerdict::Over)
            }
        }
        Answer::Yes => AddAhead::LastPart(AddVerdict::Added),
        Answer::No => {
            if a.failed + 1 < a.tries {
                AddAhead::NextRead(with_part(a, f, 1))
            } else {
                AddAhead::LastPart(AddVerdict::Spent)
            }
        }
    }
}

// Of the add a, which ends with the part f.
fn add_end(a: &Add, f: &Finished, verdict: AddVerdict) -> AddEnd
    requires { PartsFit a.now (result_of f.now) }
    ensures { finish_of (AddingEnd.Add result) ≡ FinishesAdd (add_report_of a.now (report_of (result_of f.now)) (add_answer_of verdict)) }
{
    AddEnd {
        cell: f.cell,
        verdict,
        steps: a.steps + f.steps,
        won: a.won + f.won,
        lost: a.lost + f.lost,
    }
}

// A step of the task ended its read or swap f.
pub fn end_part(s: &mut AddingState, task: u32, f: Finished) -> Option<AddingEnd>
    requires { (task < 32) × (has_add (add_at s.old.adds task) ≡ true → PartsFit (add_at s.old.adds task) (result_of f)) }
    ensures { (p : List ℕ) → adding_after s.new p (going_or_finish_of result) ≡ step_ends s.old task (add_at s.old.adds task) (leaving s.old.cells p (Ended (result_of f))) (Ended (result_of f)) }
{
    let t = task as usize;
    let a = s.adds[t];
    if !a.is_under_way() {
        return Some(AddingEnd::Call(f));
    }
    let (record, add) = match add_ahead(&a, &f) {
        AddAhead::NextRead(add) => (first_read(f.cell), add),
        AddAhead::NextSwap(expected, new, add) => (first_swap(f.cell, expected, new), add),
        AddAhead::LastPart(verdict) => {
            s.adds[t] = Add::none();
            return Some(AddingEnd::Add(add_end(&a, &f, verdict)));
        }
    };
    s.cells.records[t] = record;
    s.adds[t] = add;
    None
}
