// Runs a session file and prints its lines.
#![tactic(auto)]

mod play;
mod printing;

ghost use Rattle.std.specs.Prelude.{◌≡◌, ◌++◌, length, drop, refl};
ghost use Rattle.std.proofs.Common.{lit≤};
ghost use Rattle.io.specs.Counts.{IsPrefixLen};
ghost use Rattle.session_spec.specs.Printed.{printed_within};
ghost use Rattle.session_tool.specs.Loop.{start_text};

use crate::play::play;
use crate::printing::put_no;
use cells_spec::State;
use session_engine::actions::Actions;
use session_engine::tool::{Tool, run_tool};
use text::page::Page;

struct Session;

impl Tool for Session {
    ghost text = { λ _. start_text };

    ghost ROOM = { 921000 };

    const ROOM: usize = 921000;

    // A refused open is action 0.
    fn put_refused(&self, page: &mut Page<'_>, n: u32) {
        put_no(page, 0, n);
    }

    fn play(&self, page: &mut Page<'_>, first: State, pool: &mut [u32], actions: Actions<'_>) {
        play(page, first, pool, actions);
    }

    ghost bad_alike = { λ t n. refl };

    ghost has_room = { lit≤ tt };
}

// Prints what a session file prints at the start of out, and returns its length; nothing where out has fewer than 921,000 bytes. The bytes
// after the text are as they were.
pub fn run_session(file: &[u8], out: &mut [u8]) -> usize
    ensures out_after { out.new ≡ printed_within (length out.old) file.now ++ drop result out.old }
    ensures value { result ≡ length (printed_within (length out.old) file.now) }
    ensures prefix_len { IsPrefixLen result out.new }
{
    run_tool(&Session, file, out)
}
