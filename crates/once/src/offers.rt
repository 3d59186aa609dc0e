// The entry `begin_offer`.
ghost use Rattle.std.specs.Prelude.{◌≡◌};
ghost use Rattle.once_spec.specs.Figure.{allowed};
ghost use Rattle.once_spec.specs.Entries.{first_offer, once_after, offer_begun};

use crate::questions::{ask_offer, ask_place};
use crate::turn::idle;
use cells_spec::Refusal;
use once_spec::{Offer, OnceState};

// The offer of a task whose call begins.
fn first(cell: u32, value: u32) -> Offer
    ensures { result ≡ first_offer cell value }
{
    Offer {
        line: 1,
        cell,
        value,
        ..idle()
    }
}

// From here on the offer counts as made, whether the call ends or not.
pub fn begin_offer(s: &mut OnceState, task: u32, cell: u32, value: u32) -> Result<(), Refusal>
    ensures { once_after s.new (allowed result) ≡ offer_begun s.old task cell value }
{
    ask_place(s, task, cell)?;
    // Only now are there an offer and a cell to ask about.
    let t = task as usize;
    let k = cell as usize;
    ask_offer(s.offers[t], s.words[k].offered[t], value)?;
    s.words[k].offered[t] = true;
    s.offers[t] = first(cell, value);
    Ok(())
}
