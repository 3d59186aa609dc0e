// Reading and writing for programs: a call that fails gives one line on standard error, which says what failed and why.
// Which bytes the system's calls read or write no contract can say; of a reader and a writer that tell their bytes it can.
ghost use Rattle.std.specs.Prelude.{◌≡◌, ◌⊎◌, ℕ, ◌-◌, ◌≤◌, true, IfOk, length, take};
ghost use Rattle.std.specs.Io.KnownBytes.{Appends, Consumes, IsAtEnd};
ghost use Rattle.io.specs.Counts.{IsPrefixLen};
ghost use Rattle.program_io.specs.Input.{count_of};

use std::fmt::Display;
use std::io::{Error, ErrorKind, Read, Write};

// So many calls may move nothing, as where a signal interrupts them: a program has to end.
const PATIENCE: usize = 1000;

// Not all was read that was to be: how many bytes at the buffer's start are read all the same.
#[derive(Clone, Copy, Debug, PartialEq, Eq)]
pub struct Cut {
    pub count: usize,
}

// What failed and why, in a line. Where the line fails too, nobody is left to tell.
pub fn say<E: Write>(errors: &mut E, what: &[u8], why: impl Display + Drop) {
    let _ = errors.write_all(what);
    let _ = write!(errors, ": {why}\n");
}

// Stays (5): errors and what failed are no struct, since each call names another thing that failed, and would make one for it.
// After a call that failed: how many more are worth it. If none is, what failed has been said.
fn again<E: Write>(error: Error, left: usize, what: &[u8], errors: &mut E) -> usize
    ensures { result ≤ left - 1 }
{
    if error.kind() != ErrorKind::Interrupted {
        say(errors, what, error);
        return 0;
    }
    unmoved(left, what, errors)
}

// After a call that moved nothing: the same.
fn unmoved<E: Write>(left: usize, what: &[u8], errors: &mut E) -> usize
    ensures { result ≤ left - 1 }
{
    if left <= 1 {
        say(errors, what, "no byte was moved");
        return 0;
    }
    left - 1
}

// Reads until the buffer is full or the input ends, and answers how many bytes that were; an error where a read failed.
pub fn read_all<R: Read, E: Write>(
    from: &mut R,
    buf: &mut [u8],
    what: &[u8],
    errors: &mut E,
) -> Result<usize, Cut>
    ensures count { IsPrefixLen (count_of result) buf.new }
    ensures bytes { Consumes (R.remaining from.old) (R.remaining from.new) (take (count_of result) buf.new) }
    ensures whole { IfOk result (λ n. (n ≡ length buf.new) ⊎ IsAtEnd (R.remaining from.new)) }
{
    let mut done = 0;
    let mut left = PATIENCE;
    // Stays (3): a turn reads as many bytes as the reader gives, so nothing is counted.
    while done < buf.len() {
        match from.read(&mut buf[done..]) {
            Ok(0) => return Ok(done),
            Ok(n) => done += n,
            Err(e) => {
                left = again(e, left, what, errors);
                if left == 0 {
                    return Err(Cut { count: done });
                }
            }
        }
    }
    Ok(done)
}

// Writes all of a text, and answers whether that went well: where not, a part of it from its start was written.
pub fn write_all<W: Write, E: Write>(to: &mut W, text: &[u8], what: &[u8], errors: &mut E) -> bool
    ensures whole { result ≡ true → Appends (W.contents to.old) (W.contents to.new) text.now }
    ensures part { (k : ℕ) × Appends (W.contents to.old) (W.contents to.new) (take k text.now) }
{
    let mut rest = text;
    let mut left = PATIENCE;
    // Stays (3): as above; and std's write_all promises no part of the text where it fails.
    while !rest.is_empty() {
        match to.write(rest) {
            Ok(0) => left = unmoved(left, what, errors),
            Ok(n) => rest = &rest[n..],
            Err(e) => left = again(e, left, what, errors),
        }
        if left == 0 {
            return false;
        }
    }
    true
}
