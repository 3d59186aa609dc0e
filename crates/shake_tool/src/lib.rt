// Sessions drawn from a seed.
#![tactic(auto)]

mod actions;
mod drawing;
mod generator;
mod opening;
mod refusal;
mod sizes;

ghost use Rattle.std.specs.Prelude.{◌≡◌, ◌+◌, ◌≤◌, ◌++◌, length, drop};
ghost use Rattle.io.specs.Counts.{IsPrefixLen};
ghost use Rattle.text.specs.Append.{Appended};
ghost use Rattle.text.specs.Page.{Written};
ghost use Rattle.shake_spec.specs.Shaken.{session_text, shaken, shaken_within};

use crate::actions::put_actions;
use crate::opening::put_opening;
use crate::sizes::Sizes;
use cells::blank;
use text::page::Page;

// As many bytes as a session may have; the longest that is drawn has fewer.
const ROOM: usize = 65536;

// The session's lines, on a pool and with values that are all 0.
// Stays (5): how much room a function needs is its own number.
fn put_session(page: &mut Page<'_>, seed: u32, sizes: Sizes)
    requires { page.old.at + 65536 ≤ length page.old.bytes.now }
    ensures { Written page.old page.new (session_text seed sizes.tasks sizes.cells sizes.blocks sizes.count) }
{
    let mut room = [0; 640];
    let pool = &mut room[..5 * sizes.blocks as usize];
    let values = &[0; 16][..sizes.cells as usize];
    put_opening(page, sizes);
    let mut s = blank();
    // Sizes that are allowed are not refused.
    let _ = cells::open(&mut s, pool, sizes.tasks, sizes.cells, sizes.blocks, values);
    put_actions(page, &mut s, pool, seed, sizes);
}

// The session drawn, or the number of a refusal.
// Stays (5): the promise of `shake` names the five numbers, which are asked before they are Sizes.
fn print(page: &mut Page<'_>, seed: u32, tasks: u32, cells: u32, blocks: u32, count: u32)
    requires { page.old.at + 65536 ≤ length page.old.bytes.now }
    ensures { Written page.old page.new (shaken seed tasks cells blocks count) }
{
    match Sizes::asked(tasks, cells, blocks, count) {
        Ok(sizes) => put_session(page, seed, sizes),
        Err(refusal) => page.bad(u32::from(refusal)),
    }
}

// The same, at the start of out.
fn print_at_start(
    out: &mut [u8],
    seed: u32,
    tasks: u32,
    cells: u32,
    blocks: u32,
    count: u32,
) -> usize
    requires { 65536 ≤ length out.old }
    ensures { Appended out.old out.new 0 result (shaken seed tasks cells blocks count) }
{
    let mut page = Page::new(out);
    print(&mut page, seed, tasks, cells, blocks, count);
    page.at
}

// Prints the session drawn from the seed, or the number of a refusal, at the start of out, and returns the text's length;
// nothing where out has no ROOM. The bytes after the text are as they were.
pub fn shake(seed: u32, tasks: u32, cells: u32, blocks: u32, count: u32, out: &mut [u8]) -> usize
    ensures out_after { out.new ≡ shaken_within (length out.old) seed tasks cells blocks count ++ drop result out.old }
    ensures value { result ≡ length (shaken_within (length out.old) seed tasks cells blocks count) }
    ensures prefix_len { IsPrefixLen result out.new }
{
    if out.len() < ROOM {
        return 0;
    }
    print_at_start(out, seed, tasks, cells, blocks, count)
}
