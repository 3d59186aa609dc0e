// The questions of a begin and a step of the once-only cells, before anything is done.
ghost use Rattle.std.specs.Prelude.{◌≡◌, ◌<◌, OnOk};
ghost use Rattle.std.specs.List.{list_all};
ghost use Rattle.cells_spec.specs.Answers.{asked};
ghost use Rattle.cells_spec.specs.Questions.{refusal};
ghost use Rattle.once_spec.specs.Questions.{offer_fit, once_fit};
ghost use Rattle.once.specs.Asked.{last_questions, place_questions, task_questions};

use cells_questions::{cells_ok, tasks_ok};
use cells_spec::Refusal;
use figure_lines::records::NO_VALUE;
use once_spec::{Offer, OnceState};

// WHEN A STATE IS FIT

// Idle offers are many: they leave first.
fn offer_fit(r: &Offer, cells: u32) -> bool
    ensures { result ≡ offer_fit r.now cells }
{
    r.line == 0 || (r.cell < cells) & (r.line <= 13) & (r.value != NO_VALUE) & (r.steps <= 9)
}

fn all_fit(offers: &[Offer], cells: u32) -> bool
    ensures { result ≡ list_all (λ r. offer_fit r cells) offers.now }
{
    offers.iter().all(|r| offer_fit(r, cells))
}

fn is_fit(s: &OnceState) -> bool
    ensures { result ≡ once_fit s.now }
{
    tasks_ok(s.tasks) && cells_ok(s.cells) && all_fit(&s.offers[..s.tasks as usize], s.cells)
}

// BEGIN AND STEP

pub fn ask_task(s: &OnceState, task: u32) -> Result<(), Refusal>
    ensures questions { asked result ≡ refusal (task_questions s.now task) }
    ensures within { OnOk result (task < 32) }
{
    if !is_fit(s) {
        return Err(Refusal::Unfit);
    }
    if task >= s.tasks {
        return Err(Refusal::NoSuchTask);
    }
    Ok(())
}

pub fn ask_place(s: &OnceState, task: u32, cell: u32) -> Result<(), Refusal>
    ensures questions { asked result ≡ refusal (place_questions s.now task cell) }
    ensures within { OnOk result ((task < 32) × (cell < 16)) }
{
    ask_task(s, task)?;
    if cell >= s.cells {
        return Err(Refusal::NoSuchCell);
    }
    Ok(())
}

// Of the task's offer, and whether the task has offered on the cell.
pub fn ask_offer(r: Offer, offered: bool, value: u32) -> Result<(), Refusal>
    ensures { asked result ≡ refusal (last_questions r offered value) }
{
    if r.line != 0 {
        return Err(Refusal::Busy);
    }
    if offered {
        return Err(Refusal::AlreadyOffered);
    }
    if value == NO_VALUE {
        return Err(Refusal::ReservedValue);
    }
    Ok(())
}
