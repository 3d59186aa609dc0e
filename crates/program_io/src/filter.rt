// A program around a tool: it reads standard input whole, and writes what the tool makes of it.
ghost use Rattle.std.specs.Prelude.{ℕ};
ghost use Rattle.io.specs.Counts.{IsPrefixLen};
ghost use Rattle.program_io.specs.Filtered.{around, MayLeave, Filtered};

use crate::report::{read_all, write_all};
use std::io::{Read, Write};

// What is said where reading or writing fails.
#[derive(Clone, Copy)]
pub struct Messages<'a> {
    pub cannot_read: &'a [u8],
    pub cannot_write: &'a [u8],
}

// Runs the tool on the input, and writes the text that it leaves at the start of out. Answers yes only where all was read
// and written; nothing is written where reading failed.
pub fn filter<R: Read, W: Write, E: Write, F: FnOnce(&[u8], &mut [u8]) -> usize>(
    from: &mut R,
    file: &mut [u8],
    out: &mut [u8],
    tool: F,
    to: &mut W,
    says: Messages<'_>,
    errors: &mut E,
) -> bool
    requires callable { F.IsAlwaysCallable tool }
    requires prefix { (f o o' : _) (r : ℕ) → F.post tool f o r o' → IsPrefixLen r o'.now }
    ensures filtered { Filtered (MayLeave F.FnOnce tool) (around (R.remaining from.old) out.old (W.contents to.old)) (around (R.remaining from.new) out.new (W.contents to.new)) file.new result }
{
    let Ok(n) = read_all(from, file, says.cannot_read, errors) else {
        return false;
    };
    let end = tool(&file[..n], out);
    write_all(to, &out[..end], says.cannot_write, errors)
}
