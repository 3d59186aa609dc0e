// Reads a session file: the first of questions 12 to 15 that is answered no, or the session.
#![tactic(auto)]

mod forms;
mod items;
mod keeping;
mod opening;
pub mod reading;
mod shape;

ghost use Rattle.std.specs.Prelude.{◌≡◌, ◌≤◌, length};
ghost use Rattle.session_spec.specs.Session.{verdict};
ghost use Rattle.session_reader.specs.Reading.{verdict_of, verdict_in};
ghost use Rattle.session_reader.specs.Answers.{ParsedIs};
ghost use Rattle.session_reader.specs.Kept.{InBuffers};
ghost use Rattle.session_reader.specs.Tables.{buffers, after_reading, after_reading_into};

pub use crate::items::numbers;
use crate::reading::{ReadError, Session};

// Words that a file can fill: a value takes at least 2 bytes, and a form of five words at least 8.
pub const VALUES: usize = 32768;

pub const FORMS: usize = 40960;

pub const ACTIONS: usize = 65535;

// The first line and the others: stores the values, the forms and the actions.
// Stays (6): `read_session` says of each of the three buffers what is left in it.
// Stays (5): as below: three buffers of three sizes, lent by each caller.
fn parsed(
    file: &[u8],
    values: &mut [u32],
    kept: &mut [u32],
    actions: &mut [u32],
) -> Result<Session, ReadError>
    requires file_bound { length file.now ≤ 65536 }
    requires values_len { length values.old ≡ 32768 }
    requires kept_len { length kept.old ≡ 40960 }
    requires actions_len { length actions.old ≡ 65535 }
    ensures { ParsedIs file.now (buffers values.old kept.old actions.old) (buffers values.new kept.new actions.new) result }
{
    let first = crate::opening::opening(file, values).ok_or(ReadError::Form)?;
    let count = crate::forms::lines(file, first.next, kept, actions)?;
    Ok(Session {
        tasks: first.tasks,
        cells: first.cells,
        blocks: first.blocks,
        values: first.values,
        actions: count,
    })
}

// Stays (6): as above.
fn read(
    file: &[u8],
    values: &mut [u32],
    kept: &mut [u32],
    actions: &mut [u32],
) -> Result<Session, ReadError>
    requires values_len { length values.old ≡ 32768 }
    requires kept_len { length kept.old ≡ 40960 }
    requires actions_len { length actions.old ≡ 65535 }
    ensures actions_after { verdict_of result values.new kept.new actions.new ≡ verdict file.now }
    ensures in_buffers { InBuffers result values.new kept.new actions.new }
    ensures actions_after_2 { buffers values.new kept.new actions.new ≡ after_reading file.now (buffers values.old kept.old actions.old) }
{
    if 65536 < file.len() {
        return Err(ReadError::TooLong);
    }
    if !crate::shape::shaped(file) {
        return Err(ReadError::Shape);
    }
    let found = parsed(file, values, kept, actions);
    if found.is_err() {
        values.fill(0);
        kept.fill(0);
        actions.fill(0);
    }
    found
}

// The session's values, its forms of five words (kind 1 read, 2 swap, 3 step, 4 drop; then its numbers and zeros) and its actions,
// each the number of its form, are left in the buffers, and behind them what was there. After 14 or 15 there are zeros.
// Stays (6): as above; its clauses name the three buffers.
pub fn read_session(
    file: &[u8],
    values: &mut [u32],
    forms: &mut [u32],
    actions: &mut [u32],
) -> Result<Session, ReadError>
    ensures actions_after { verdict_of result values.new forms.new actions.new ≡ verdict_in (length values.old) (length forms.old) (length actions.old) file.now }
    ensures in_buffers { InBuffers result values.new forms.new actions.new }
    ensures actions_after_2 { buffers values.new forms.new actions.new ≡ after_reading_into file.now (buffers values.old forms.old actions.old) }
{
    if (values.len(), forms.len(), actions.len()) != (VALUES, FORMS, ACTIONS) {
        return Err(ReadError::BufferSizes);
    }
    read(file, values, forms, actions)
}
