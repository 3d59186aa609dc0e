// Reads a session from standard input and writes when each of its calls took effect.
#![tactic(auto)]

use buffers::{FILE, LINES, zeroed};
use moments_tool::run_moments;
use program_io::filter::{Messages, filter};

// Stays (2): a program names its tool, its room and its messages; what programs share is `filter`.
fn main(rt: HostRuntime) {
    filter(
        &mut rt.stdin(),
        &mut zeroed::<FILE>(),
        &mut zeroed::<LINES>(),
        |file, out| run_moments(file, out),
        &mut rt.stdout(),
        Messages {
            cannot_read: b"moments: cannot read standard input",
            cannot_write: b"moments: cannot write standard output",
        },
        &mut rt.stderr(),
    );
}
