// Numbers at the start of a text, each ended by one byte: a line of arguments by byte 0, the numbers of a stored case by byte 10.
ghost use Rattle.std.specs.Prelude.{◌≡◌, length};
ghost use Rattle.text.specs.Readers.{stored};
ghost use Rattle.text.specs.Answers.{NumeralIs, SeveralIs};
ghost use Rattle.text.specs.Arguments.{ended_by, argument, numbers_given, numbers_or};

use crate::numerals::number;
use crate::readers::starts_with;

// The number that stands at `at`, and the place after its end.
fn ended(s: &[u8], at: usize, end: u8) -> Option<(u32, usize)>
    ensures { NumeralIs (ended_by end) s.now at 2 result }
{
    let (n, a) = number(s, at)?;
    let next = starts_with(s, a, &[end])?;
    Some((n, next))
}

// Stores numbers, as many as there are places; where one is missing, those before it. Returns the place after the last one.
pub fn ended_numbers(s: &[u8], end: u8, out: &mut [u32]) -> Option<usize>
    ensures several_is { SeveralIs (ended_by end) s.now 0 (length out.old) out.new result }
    ensures out_after { out.new ≡ stored (ended_by end) (length out.old) s.now out.old }
{
    let mut at = 0;
    for place in out.iter_mut() {
        let (v, next) = ended(s, at, end)?;
        *place = v;
        at = next;
    }
    Some(at)
}

// Stores the numbers of a line of arguments; whether there are as many as places, and all are numbers.
pub fn numbers(line: &[u8], out: &mut [u32]) -> bool
    ensures out_after { numbers_or result out.new ≡ numbers_given (length out.old) line.now }
    ensures out_after_2 { out.new ≡ stored argument (length out.old) line.now out.old }
{
    ended_numbers(line, 0, out) == Some(line.len())
}
