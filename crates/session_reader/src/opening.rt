// The first line: (open N V B (values)).
ghost use Rattle.std.specs.Prelude.{◌+◌, ◌*◌, ◌≤◌, length};
ghost use Rattle.session_reader.specs.Answers.{ValuesAre, LeadIs, OpenedIs};
ghost use Rattle.session_reader.specs.Kept.{ListedWithin, OpenedWithin};

use crate::items::{close, item, numbers};
use crate::reading::Opened;
use text::numerals::number;
use text::readers::starts_with;

// Stores the values up to their bracket. Returns how many, and the place after the bracket.
fn values(s: &[u8], at: usize, out: &mut [u32]) -> Option<(usize, usize)>
    requires le_at { (1 ≤ at) × (at ≤ length s.now) }
    requires s_len_bound { length s.now ≤ 2 * length out.old }
    ensures values_are { ValuesAre s.now at out.new result }
    ensures listed_within { ListedWithin out.old out.new result }
{
    if let Some(next) = close(s, at) {
        return Some((0, next));
    }
    let (v, a) = number(s, at)?;
    out[0] = v;
    let mut n = 1;
    let mut i = a;
    // Stays (3): the bracket that ends the values is read within, so no count is known before.
    loop {
        if let Some(next) = close(s, i) {
            return Some((n, next));
        }
        let (w, next) = item(s, i)?;
        out[n] = w;
        n += 1;
        i = next;
    }
}

// The line up to its values: stores the three numbers.
fn lead(s: &[u8], out: &mut [u32]) -> Option<usize>
    requires { 3 ≤ length out.old }
    ensures { LeadIs s.now out.new result }
{
    let a = starts_with(s, 0, b"(open")?;
    let b = numbers(s, a, 3, out)?;
    starts_with(s, b, b" (")
}

// Stores the values.
pub fn opening(s: &[u8], out: &mut [u32]) -> Option<Opened>
    requires { length s.now ≤ 2 * length out.old }
    ensures opened_is { OpenedIs s.now out.new result }
    ensures opened_within { OpenedWithin out.old out.new result }
{
    let mut n = [0u32; 3];
    let c = lead(s, &mut n)?;
    let (count, d) = values(s, c, out)?;
    let next = starts_with(s, d, b")\n")?;
    Some(Opened {
        tasks: n[0],
        cells: n[1],
        blocks: n[2],
        values: count,
        next,
    })
}
