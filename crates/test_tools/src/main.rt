// Writes the name of each case that an argument names, and what the tool prints of it in whose folder it stands. Where a tool
// takes numbers, the first lines have one each; a case that has not gives (bad 14), as does a folder of no tool.
#![tactic(auto)]

ghost use Rattle.std.specs.Prelude.{◌≤◌, IfSome};
ghost use Rattle.io.specs.Counts.{IsPrefixLen};

use buffers::{LINES, SESSION, zeroed};
use program_io::arguments::argument_count;
use program_io::case_files::{CASE_ROOM, NAME_ROOM, read_case};
use program_io::report::write_all;
use std::io::Write;
use std::rt::{Env, Files};
use text::arguments::ended_numbers;

#[derive(Clone, Copy)]
enum Tool {
    Session,
    Moments,
    Nudge,
    Bus,
    Shake,
    // The session that shake draws, run.
    Shaken,
}

impl Tool {
    // Folders differ by their first letter, those with s by their second and sixth.
    fn of(name: &[u8; NAME_ROOM]) -> Option<Tool> {
        match (name[0], name[1], name[5]) {
            (b'm', _, _) => Some(Tool::Moments),
            (b'n', _, _) => Some(Tool::Nudge),
            (b'b', _, _) => Some(Tool::Bus),
            (b's', b'e', _) => Some(Tool::Session),
            (b's', _, b'/') => Some(Tool::Shake),
            (b's', _, _) => Some(Tool::Shaken),
            _ => None,
        }
    }

    // How many numbers it takes.
    // Stays (4): a property of each tool, no conversion.
    fn takes(self) -> usize
        ensures { result ≤ 6 }
    {
        match self {
            Tool::Session | Tool::Moments => 0,
            Tool::Nudge => 2,
            Tool::Shake | Tool::Shaken => 5,
            Tool::Bus => 6,
        }
    }

    fn run(self, n: &[u32; 6], s: &[u8], out: &mut [u8]) -> usize
        ensures { IsPrefixLen result out.new }
    {
        match self {
            Tool::Session => session_tool::run_session(s, out),
            Tool::Moments => moments_tool::run_moments(s, out),
            Tool::Nudge => nudge_tool::run_nudge(s, n[0], n[1], out),
            Tool::Bus => bus_tool::run_bus(n[0], n[1], n[2], n[3], n[4], n[5], s, out),
            Tool::Shake => shake_tool::shake(n[0], n[1], n[2], n[3], n[4], out),
            Tool::Shaken => {
                let mut drawn = zeroed::<SESSION>();
                let end = shake_tool::shake(n[0], n[1], n[2], n[3], n[4], &mut drawn);
                session_tool::run_session(&drawn[..end], out)
            }
        }
    }
}

fn print(to: &mut impl Write, text: &[u8], errors: &mut impl Write) {
    write_all(to, text, b"output", errors);
}

// The text that the tool prints of a case, at the start of out: none where the folder is no tool's, or the numbers are missing.
fn run_text(tool: Option<Tool>, s: &[u8], out: &mut [u8]) -> Option<usize>
    ensures { IfSome result (λ n. IsPrefixLen n out.new) }
{
    let tool = tool?;
    let mut n = [0; 6];
    let from = ended_numbers(s, b'\n', &mut n[..tool.takes()])?;
    Some(tool.run(&n, s.get(from..)?, out))
}

fn run_case<R: Env + Files>(
    rt: &R,
    i: usize,
    out: &mut [u8],
    to: &mut impl Write,
    errors: &mut impl Write,
) {
    let mut file = [0; CASE_ROOM];
    let Ok(n) = read_case(rt, i, &mut file, to, errors) else {
        return;
    };
    let mut name = [0; NAME_ROOM];
    let _ = rt.arg(i, &mut name);
    match run_text(Tool::of(&name), &file[..n], out) {
        Some(end) => print(to, &out[..end], errors),
        None => print(to, b"(bad 14)\n", errors),
    }
}

fn main(rt: HostRuntime) {
    let mut output = rt.stdout();
    let mut errors = rt.stderr();
    let mut out = zeroed::<LINES>();
    for i in 1..argument_count(&rt) {
        run_case(&rt, i, &mut out, &mut output, &mut errors);
    }
}
