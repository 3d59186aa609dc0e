// Reads a session from standard input and writes what it prints.
#![tactic(auto)]

use buffers::{FILE, TEXT, zeroed};
use program_io::filter::{Messages, filter};
use session_tool::run_session;

// Stays (2): a program names its tool, its room and its messages; what programs share is `filter`.
fn main(rt: HostRuntime) {
    filter(
        &mut rt.stdin(),
        &mut zeroed::<FILE>(),
        &mut zeroed::<TEXT>(),
        |file, out| run_session(file, out),
        &mut rt.stdout(),
        Messages {
            cannot_read: b"session: cannot read standard input",
            cannot_write: b"session: cannot write standard output",
        },
        &mut rt.stderr(),
    );
}
