// Prints when each call of a session file took effect.
#![tactic(auto)]

mod calls;
mod made;
mod marks;
mod notes;
mod play;
mod sights;
mod spots;
mod words;

ghost use Rattle.std.specs.Prelude.{◌≡◌, ◌++◌, length, drop, refl};
ghost use Rattle.std.proofs.Common.{lit≤};
ghost use Rattle.io.specs.Counts.{IsPrefixLen};
ghost use Rattle.session_engine.specs.Start.{tool_start};
ghost use Rattle.moments_spec.specs.Printed.{moments_text, moments_within};

use crate::play::play;
use cells_spec::State;
use session_engine::actions::Actions;
use session_engine::tool::{Tool, run_tool};
use text::page::Page;

struct Moments;

impl Tool for Moments {
    ghost text = { λ _. tool_start moments_text };

    ghost ROOM = { 2400000 };

    const ROOM: usize = 2400000;

    fn put_refused(&self, page: &mut Page<'_>, n: u32) {
        page.bad(n)
    }

    fn play(&self, page: &mut Page<'_>, first: State, pool: &mut [u32], actions: Actions<'_>) {
        play(page, first, pool, actions);
    }

    ghost bad_alike = { λ t n. refl };

    ghost has_room = { lit≤ tt };
}

// Prints the moments of a session file at the start of out, and returns the text's length; nothing where out has fewer than
// 2,400,000 bytes. The bytes after the text are as they were.
pub fn run_moments(file: &[u8], out: &mut [u8]) -> usize
    ensures out_after { out.new ≡ moments_within (length out.old) file.now ++ drop result out.old }
    ensures value { result ≡ length (moments_within (length out.old) file.now) }
    ensures prefix_len { IsPrefixLen result out.new }
{
    run_tool(&Moments, file, out)
}
