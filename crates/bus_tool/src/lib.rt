// Prints the bus times of a session file.
#![tactic(auto)]

mod calls;
mod kinds;
mod play;
mod printing;
mod ranges;
mod refusal;

ghost use Rattle.std.specs.Prelude.{◌≡◌, ◌++◌, length, drop, refl};
ghost use Rattle.std.proofs.Common.{lit≤};
ghost use Rattle.io.specs.Counts.{IsPrefixLen};
ghost use Rattle.bus_spec.specs.Bus.{times_from, bus_text, bus_within};
ghost use Rattle.session_engine.specs.Start.{tool_start};
ghost use Rattle.bus_tool.specs.Kinds.{times_between};

use crate::kinds::Kinds;
use crate::play::play;
use crate::ranges::Ranges;
use cells_spec::State;
use session_engine::actions::Actions;
use session_engine::tool::{Tool, run_tool};
use text::page::Page;

// Its settings are the times as they were given.
#[derive(Clone, Copy)]
struct Bus {
    low: Kinds,
    high: Kinds,
}

impl Tool for Bus {
    ghost text = { λ b. tool_start (bus_text (times_between b.low b.high)) };

    ghost ROOM = { 2400000 };

    const ROOM: usize = 2400000;

    fn put_refused(&self, page: &mut Page<'_>, n: u32) {
        page.bad(n)
    }

    // 21 and 22, then the actions.
    // Stays (5): state, pool and actions are lent apart, and a struct of them cannot hold a part of a lent slice (docs/DESIGN-PASS.md).
    fn play(&self, page: &mut Page<'_>, first: State, pool: &mut [u32], actions: Actions<'_>) {
        match Ranges::asked(self.low, self.high) {
            Ok(ranges) => play(page, ranges, first, pool, actions),
            Err(refusal) => page.bad(u32::from(refusal)),
        }
    }

    ghost bad_alike = { λ t n. refl };

    ghost has_room = { lit≤ tt };
}

// Prints the bus times of a session file at the start of out, by the low and high times of a load, a store and a hardware CAS, and
// returns the text's length; nothing where out has fewer than 2,400,000 bytes. The bytes after the text are as they were.
pub fn run_bus(
    load_low: u32,
    load_high: u32,
    store_low: u32,
    store_high: u32,
    hardware_low: u32,
    hardware_high: u32,
    file: &[u8],
    out: &mut [u8],
) -> usize
    ensures out_after { out.new ≡ bus_within (times_from load_low load_high store_low store_high hardware_low hardware_high) (length out.old) file.now ++ drop result out.old }
    ensures value { result ≡ length (bus_within (times_from load_low load_high store_low store_high hardware_low hardware_high) (length out.old) file.now) }
    ensures prefix_len { IsPrefixLen result out.new }
{
    let low = Kinds {
        load: load_low,
        store: store_low,
        hardware: hardware_low,
    };
    let high = Kinds {
        load: load_high,
        store: store_high,
        hardware: hardware_high,
    };
    run_tool(&Bus { low, high }, file, out)
}
