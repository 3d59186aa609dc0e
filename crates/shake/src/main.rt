// Writes the session that is drawn from a seed: shake SEED N V B LENGTH.
#![tactic(auto)]

use buffers::{SESSION, zeroed};
use program_io::arguments::started_with;
use program_io::report::write_all;
use shake_tool::shake;

fn main(rt: HostRuntime) {
    let mut output = rt.stdout();
    let mut errors = rt.stderr();
    let usage = b"usage: shake SEED N V B LENGTH\n";
    let what = b"shake: cannot write standard output";
    let given: Option<[u32; 5]> = started_with(&rt, &mut output, usage, what, &mut errors);
    let Some(n) = given else {
        return;
    };
    let mut out = zeroed::<SESSION>();
    let end = shake(n[0], n[1], n[2], n[3], n[4], &mut out);
    write_all(&mut output, &out[..end], what, &mut errors);
}
