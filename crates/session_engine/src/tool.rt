// One run of every tool on a session: the file is read, the cells are opened, and the tool prints what follows.
//
// A tool is a struct of its settings with an `impl Tool`: its text as a definition, its room, and two methods that print.
//
//     impl Tool for Moments {
//         ghost text = { λ _. tool_start moments_text };
//         ghost ROOM = { 2400000 };
//         const ROOM: usize = 2400000;
//         fn put_refused(&self, page: &mut Page<'_>, n: u32) { page.bad(n) }
//         fn play(&self, page: &mut Page<'_>, first: State, pool: &mut [u32], actions: Actions<'_>) { .. }
//         ghost bad_alike = { λ t n. refl };
//         ghost has_room = { lit≤ tt };
//     }
//
// Its program then calls `run_tool(&Moments, file, out)`. By `tool_text_within` (proofs/Texts.antt) the promise is `tool_within`'s.
ghost use Rattle.std.specs.Prelude.{◌≡◌, List, ℕ, ◌+◌, ◌≤◌, ◌++◌, length, drop};
ghost use Rattle.io.specs.Counts.{IsPrefixLen};
ghost use Rattle.text.specs.Append.{Appended};
ghost use Rattle.text.specs.Lines.{bad_line};
ghost use Rattle.text.specs.Page.{Written};
ghost use Rattle.session_spec.specs.Session.{verdict};
ghost use Rattle.session_engine.specs.Start.{Start, no_session, not_opened, ready, start_of};
ghost use Rattle.session_engine.specs.Tool.{Fresh, all_of, text_within};

use crate::actions::Actions;
use crate::start::{StartError, open_session};
use cells_spec::State;
use session_reader::{ACTIONS, FORMS, VALUES};
use text::page::Page;

pub trait Tool {
    // What it prints of what a file leads to.
    ghost text: { Self → Start → List ℕ };

    // How many bytes its longest text takes.
    ghost ROOM: { ℕ };

    const ROOM: usize;

    fn put_refused(&self, page: &mut Page<'_>, n: u32)
        requires { page.old.at + 67 ≤ length page.old.bytes.now }
        ensures { Written page.old page.new (text self.now (not_opened n)) };

    // What is left in the pool is open: it is the session's own.
    fn play(&self, page: &mut Page<'_>, first: State, pool: &mut [u32], actions: Actions<'_>)
        requires room { page.old.at + ROOM ≤ length page.old.bytes.now }
        requires fresh { Fresh first pool.old }
        ensures { Written page.old page.new (text self.now (ready first.tasks first.cells (first, pool.old) (all_of actions.entry))) };

    ghost bad_alike: { (t : Self) (n : ℕ) → text t (no_session n) ≡ bad_line n };

    ghost has_room: { 67 ≤ ROOM };
}

// The text of a session file, at the start of out.
fn print_file<T: Tool>(tool: &T, file: &[u8], out: &mut [u8]) -> usize
    requires { T.ROOM ≤ length out.old }
    ensures { Appended out.old out.new 0 result (T.text tool.now (start_of (verdict file.now))) }
{
    let mut values = [0; VALUES];
    let mut forms = [0; FORMS];
    let mut kept = [0; ACTIONS];
    let mut pool = [0; 640];
    let mut page = Page::new(out);
    match open_session(file, &mut values, &mut forms, &mut kept, &mut pool) {
        Ok(started) => {
            let actions = Actions {
                forms: &forms,
                kept: &kept[..started.actions],
            };
            tool.play(
                &mut page,
                started.state,
                &mut pool[..started.words],
                actions,
            )
        }
        Err(StartError::NoSession(why)) => page.bad(u32::from(why)),
        Err(StartError::NotOpened(refusal)) => tool.put_refused(&mut page, u32::from(refusal)),
    }
    page.at
}

// The same, or nothing where out has too little room. The bytes after the text are as they were.
pub fn run_tool<T: Tool>(tool: &T, file: &[u8], out: &mut [u8]) -> usize
    ensures out_after { out.new ≡ text_within T.ROOM (T.text tool.now (start_of (verdict file.now))) (length out.old) ++ drop result out.old }
    ensures value { result ≡ length (text_within T.ROOM (T.text tool.now (start_of (verdict file.now))) (length out.old)) }
    ensures prefix_len { IsPrefixLen result out.new }
{
    if out.len() < T::ROOM {
        return 0;
    }
    print_file(tool, file, out)
}
