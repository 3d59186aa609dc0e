// The entries with adds: over the cells' state with each task's add. Each asks of the adds too whether the state is fit.
// Refused, an entry leaves state, pool and lent record as they were.
ghost use Rattle.std.specs.Prelude.{◌≡◌};
ghost use Rattle.cells_spec.specs.Answers.{looked_at};
ghost use Rattle.history_spec.specs.History.{read, swap};
ghost use Rattle.adds_spec.specs.Adding.{adding_said_of, adding_acted_of, adding_after, adding_blank, adding_opened, adding_begun, add_begun, adding_stepped, adding_lent, adding_stepped_lent, adding_dropped, adding_looked};

use crate::add_parts::end_part;
use crate::adds_fitness::{adds_fit, tries_ok};
use adds_spec::{Add, AddingEnd, AddingState};
use cells_spec::Refusal;
use figure_lines::Record;

// For whoever opens cells with adds for the first time.
pub fn blank() -> AddingState
    ensures { result ≡ adding_blank }
{
    AddingState {
        cells: crate::opening_state::blank(),
        adds: [Add::none(); 32],
    }
}

// Stays (5): entries take plain numbers, as firmware has them; `open` and `begin_swap` name theirs in their promises.
pub fn open(
    s: &mut AddingState,
    pool: &mut [u32],
    tasks: u32,
    cells: u32,
    blocks: u32,
    values: &[u32],
) -> Result<(), Refusal>
    ensures { adding_after s.new pool.new (adding_acted_of result) ≡ adding_opened s.old pool.old tasks cells blocks values.now }
{
    crate::opening::open(&mut s.cells, pool, tasks, cells, blocks, values)?;
    s.adds = [Add::none(); 32];
    Ok(())
}

// Stays (2): begin_read, begin_swap and drop differ in the entry that they call; a closure that calls it is no shorter.
#[tactic(auto, unfolding(adds_spec::specs::Adding::adding_begun))]
pub fn begin_read(s: &mut AddingState, pool: &[u32], task: u32, cell: u32) -> Result<(), Refusal>
    ensures { adding_after s.new pool.now (adding_acted_of result) ≡ adding_begun s.old pool.now task (read cell) }
{
    if !adds_fit(s) {
        return Err(Refusal::Unfit);
    }
    crate::begins::begin_read(&mut s.cells, pool, task, cell)?;
    s.adds[task as usize] = Add::none();
    Ok(())
}

// Stays (2): as at begin_read.
// Stays (5): an entry takes a swap's three numbers as firmware has them.
#[tactic(auto, unfolding(adds_spec::specs::Adding::adding_begun))]
pub fn begin_swap(
    s: &mut AddingState,
    pool: &[u32],
    task: u32,
    cell: u32,
    expected: u32,
    new: u32,
) -> Result<(), Refusal>
    ensures { adding_after s.new pool.now (adding_acted_of result) ≡ adding_begun s.old pool.now task (swap cell expected new) }
{
    if !adds_fit(s) {
        return Err(Refusal::Unfit);
    }
    crate::begins::begin_swap(&mut s.cells, pool, task, cell, expected, new)?;
    s.adds[task as usize] = Add::none();
    Ok(())
}

// An add begins with its first read, here of a copy: its number of tries is asked about last.
pub fn begin_add(
    s: &mut AddingState,
    pool: &[u32],
    task: u32,
    cell: u32,
    amount: u32,
    tries: u32,
) -> Result<(), Refusal>
    ensures { adding_after s.new pool.now (adding_acted_of result) ≡ add_begun s.old pool.now task cell amount tries }
{
    if !adds_fit(s) {
        return Err(Refusal::Unfit);
    }
    let mut cells = s.cells;
    crate::begins::begin_read(&mut cells, pool, task, cell)?;
    if !tries_ok(tries) {
        return Err(Refusal::Tries);
    }
    s.cells = cells;
    s.adds[task as usize] = Add::begun(amount, tries);
    Ok(())
}

// A busy task's next line. Where it ends a part of an add, the next one begins in the same step.
pub fn step(s: &mut AddingState, pool: &mut [u32], task: u32) -> Result<Option<AddingEnd>, Refusal>
    ensures { adding_after s.new pool.new (adding_said_of result) ≡ adding_stepped s.old pool.old task }
{
    if !adds_fit(s) {
        return Err(Refusal::Unfit);
    }
    match crate::steps::step(&mut s.cells, pool, task)? {
        None => Ok(None),
        Some(f) => Ok(end_part(s, task, f)),
    }
}

// A step over the task's record, lent: it takes the place of the state's, and afterwards the two are equal.
// Stays (2): cells::step_lent over the adds' state; one for both would take the step, the records and the equation as parameters.
pub fn step_lent(
    s: &mut AddingState,
    pool: &mut [u32],
    task: u32,
    rec: &mut Record,
) -> Result<Option<AddingEnd>, Refusal>
    ensures { adding_lent (adding_after s.new pool.new (adding_said_of result)) rec.exit.now ≡ adding_stepped_lent s.old pool.old task rec.entry.now }
{
    let t = task as usize;
    // A task beyond the records has none, and is refused.
    let Some(&own) = s.cells.records.get(t) else {
        return step(s, pool, task);
    };
    s.cells.records[t] = *rec;
    match step(s, pool, task) {
        Ok(ended) => {
            *rec = s.cells.records[t];
            Ok(ended)
        }
        Err(refusal) => {
            s.cells.records[t] = own;
            Err(refusal)
        }
    }
}

// The task's call is withdrawn, and the add that it is a part of.
// Stays (2): as at begin_read.
#[tactic(auto, unfolding(adds_spec::specs::Adding::adding_dropped))]
pub fn drop(s: &mut AddingState, pool: &[u32], task: u32) -> Result<(), Refusal>
    ensures { adding_after s.new pool.now (adding_acted_of result) ≡ adding_dropped s.old pool.now task }
{
    if !adds_fit(s) {
        return Err(Refusal::Unfit);
    }
    crate::drops::drop(&mut s.cells, pool, task)?;
    s.adds[task as usize] = Add::none();
    Ok(())
}

#[tactic(auto, unfolding(adds_spec::specs::Adding::adding_looked))]
pub fn look(s: &AddingState, pool: &[u32], cell: u32) -> Result<u32, Refusal>
    ensures { looked_at result ≡ adding_looked s.now pool.now cell }
{
    if !adds_fit(s) {
        return Err(Refusal::Unfit);
    }
    crate::looks::look(&s.cells, pool, cell)
}
