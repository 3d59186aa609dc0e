// A task's record.
ghost use Rattle.std.specs.Prelude.{◌≡◌};
ghost use Rattle.figure_lines.specs.Record.{idle, first, first_read, first_swap};

use crate::Record;

// The reserved value.
// Stays (1): a word of the pool has 32 bits, and document 01 reserves this one of them.
pub const NO_VALUE: u32 = 4294967295;

// Of a task without a call.
pub fn idle() -> Record
    ensures { result ≡ idle }
{
    Record {
        line: 0,
        wanted: 0,
        kind: 0,
        cell: 0,
        expected: 0,
        new: 0,
        held: 0,
        taken: 0,
        loaded: 0,
        steps: 0,
        won: 0,
        lost: 0,
    }
}

// Of a task whose call begins.
fn first(line: u32, kind: u32, cell: u32, expected: u32, new: u32) -> Record
    ensures { result ≡ first line kind cell expected new }
{
    Record {
        line,
        kind,
        cell,
        expected,
        new,
        ..idle()
    }
}

pub fn first_read(cell: u32) -> Record
    ensures { result ≡ first_read cell }
{
    first(10, 1, cell, 0, 0)
}

// A swap of equal values reads.
pub fn first_swap(cell: u32, expected: u32, new: u32) -> Record
    ensures { result ≡ first_swap cell expected new }
{
    if expected == new {
        return first(10, 2, cell, expected, new);
    }
    first(15, 2, cell, expected, new)
}
