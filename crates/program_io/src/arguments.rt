// The numbers that a program is started with, for every tool that takes numbers.
ghost use Rattle.std.specs.Prelude.{◌≡◌, ℕ, ◌-◌, ◌<◌, true, cond, IsSome, length, take, slice_index};
ghost use Rattle.std.proofs.Math.Option.{none};
ghost use Rattle.std.specs.Io.KnownBytes.{Appends, Keeps};
ghost use Rattle.io.specs.Counts.{IsPrefixLen};
ghost use Rattle.program_io.specs.Arguments.{math_option};
ghost use Rattle.program_io.specs.Input.{count_of};
ghost use Rattle.text.specs.Bytes.{bytes};
ghost use Rattle.text.specs.Readers.{stored};
ghost use Rattle.text.specs.Arguments.{argument, numbers_given, numbers_or};

use crate::report::{Cut, write_all};
use std::env::FillError;
use std::io::Write;
use std::rt::Env;

// More than the arguments of any tool take together.
pub const ARGUMENT_ROOM: usize = 4096;

// How many arguments the program was started with, its own name among them.
pub fn argument_count(rt: &impl Env) -> usize {
    for i in 0..usize::MAX {
        if let Err(FillError::NotPresent) = rt.arg(i, &mut []) {
            return i;
        }
    }
    usize::MAX
}

// Every argument that the program was started with, each ended by byte 0, at the start of a buffer; an error where one does
// not fit. Which bytes the system hands over no contract can say.
pub fn gather(rt: &impl Env, buf: &mut [u8]) -> Result<usize, Cut>
    ensures count { IsPrefixLen (count_of result) buf.new }
    ensures ended { 0 < count_of result → slice_index buf.new (count_of result - 1) ≡ 0 }
{
    let mut at = 0;
    for i in 1..usize::MAX {
        match rt.arg(i, &mut buf[at..]) {
            Ok(n) => {
                let end = at + n;
                if buf.len() <= end {
                    return Err(Cut { count: at });
                }
                buf[end] = 0;
                at = end + 1;
            }
            Err(FillError::TooLong) => return Err(Cut { count: at }),
            Err(FillError::NotPresent) => return Ok(at),
        }
    }
    Err(Cut { count: at })
}

// Writes (bad 14), and how the program is used on standard error.
// Stays (5): as at `take`.
fn refuse<W: Write>(to: &mut W, usage: &[u8], what: &[u8], errors: &mut impl Write)
    ensures { (k : ℕ) × Appends (W.contents to.old) (W.contents to.new) (take k (bytes "(bad 14)\n")) }
{
    write_all(to, b"(bad 14)\n", what, errors);
    let _ = errors.write_all(usage);
}

// Stays (5): each program has other texts, so a struct of writers and texts would be made once, for one call.
// Stores the numbers of the arguments that were gathered, if all of them were; whether there are as many as places, and all
// are numbers. Where not, writes (bad 14), and how the program is used on standard error.
// Stays (6): three texts, no parallel arrays.
pub fn take<W: Write>(
    line: &[u8],
    whole: bool,
    out: &mut [u32],
    to: &mut W,
    usage: &[u8],
    what: &[u8],
    errors: &mut impl Write,
) -> bool
    ensures out_after { numbers_or result out.new ≡ cond whole (numbers_given (length out.old) line.now) none }
    ensures out_after_2 { out.new ≡ cond whole (stored argument (length out.old) line.now out.old) out.old }
    ensures quiet { result ≡ true → Keeps (W.contents to.old) (W.contents to.new) }
    ensures written { (k : ℕ) × Appends (W.contents to.old) (W.contents to.new) (take k (bytes "(bad 14)\n")) }
{
    if !whole {
        refuse(to, usage, what, errors);
        return false;
    }
    if text::arguments::numbers(line, out) {
        return true;
    }
    refuse(to, usage, what, errors);
    false
}

// The N numbers of the arguments that were gathered. Where they are not N numbers, writes (bad 14), and how the program is used on
// standard error.
// Stays (5): as at `take`.
// Stays (6): three texts, no parallel arrays.
fn given<const N: usize, W: Write>(
    line: &[u8],
    whole: bool,
    to: &mut W,
    usage: &[u8],
    what: &[u8],
    errors: &mut impl Write,
) -> Option<[u32; N]>
    ensures numbers { math_option result ≡ cond whole (numbers_given N line.now) none }
    ensures quiet { IsSome result → Keeps (W.contents to.old) (W.contents to.new) }
    ensures written { (k : ℕ) × Appends (W.contents to.old) (W.contents to.new) (take k (bytes "(bad 14)\n")) }
{
    let mut numbers = [0; N];
    take(line, whole, &mut numbers, to, usage, what, errors).then_some(numbers)
}

// Those that the program was started with. Which bytes the system hands over no contract can say; `given` says what is made of them.
pub fn started_with<const N: usize, W: Write>(
    rt: &impl Env,
    to: &mut W,
    usage: &[u8],
    what: &[u8],
    errors: &mut impl Write,
) -> Option<[u32; N]>
    ensures quiet { IsSome result → Keeps (W.contents to.old) (W.contents to.new) }
    ensures written { (k : ℕ) × Appends (W.contents to.old) (W.contents to.new) (take k (bytes "(bad 14)\n")) }
{
    let mut line = [0; ARGUMENT_ROOM];
    let (length, whole) = match gather(rt, &mut line) {
        Ok(length) => (length, true),
        Err(cut) => (cut.count, false),
    };
    given(&line[..length], whole, to, usage, what, errors)
}
