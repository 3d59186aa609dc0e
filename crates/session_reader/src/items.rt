// Items of a form: its numbers, and what parts and ends them.
ghost use Rattle.std.specs.Prelude.{◌≡◌, ◌≤◌, length, drop};
ghost use Rattle.text.specs.Readers.{stored};
ghost use Rattle.text.specs.Answers.{PlaceIs, NumeralIs, SeveralIs};
ghost use Rattle.session_spec.specs.Session.{space as «space_of», item as «item_of», close as «closeOf»};

use text::numerals::number;
use text::readers::starts_with;

pub fn space(s: &[u8], at: usize) -> Option<usize>
    requires { at ≤ length s.now }
    ensures { PlaceIs «space_of» s.now at 1 result }
{
    starts_with(s, at, b" ")
}

// A number after a space.
pub fn item(s: &[u8], at: usize) -> Option<(u32, usize)>
    requires { at ≤ length s.now }
    ensures { NumeralIs «item_of» s.now at 2 result }
{
    let a = space(s, at)?;
    number(s, a)
}

pub fn close(s: &[u8], at: usize) -> Option<usize>
    requires { at ≤ length s.now }
    ensures { PlaceIs «closeOf» s.now at 1 result }
{
    starts_with(s, at, b")")
}

// Stores k numbers, each after a space; where one is missing, those before it.
pub fn numbers(s: &[u8], at: usize, k: usize, out: &mut [u32]) -> Option<usize>
    requires at_in_bounds { at ≤ length s.now }
    requires k_in_bounds { k ≤ length out.old }
    ensures several_is { SeveralIs «item_of» s.now at k out.new result }
    ensures out_after { out.new ≡ stored «item_of» k (drop at s.now) out.old }
{
    let mut i = at;
    for n in 0..k {
        let (v, next) = item(s, i)?;
        out[n] = v;
        i = next;
    }
    Some(i)
}
