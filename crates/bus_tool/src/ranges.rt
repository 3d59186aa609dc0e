// The times of each kind of access.
ghost use Rattle.std.specs.Prelude.{◌≡◌};
ghost use Rattle.std.proofs.Math.Option.{none};
ghost use Rattle.cells_spec.specs.Questions.{refusal};
ghost use Rattle.bus_spec.specs.Bus.{short_times, bus_questions};
ghost use Rattle.bus_tool.specs.Kinds.{times_between};

use crate::kinds::Kinds;
use crate::refusal::TimesRefusal;

// Ranges that no question refuses.
#[derive(Clone, Copy)]
pub struct Ranges {
    pub low: Kinds,
    pub high: Kinds,
    ghost allowed: { refusal (bus_questions (times_between low high)) ≡ none },
}

impl Ranges {
    ghost use Rattle.bus_tool.specs.Structs.{AskedTimes};

    // All ranges are asked 21 before any is asked 22.
    pub fn asked(low: Kinds, high: Kinds) -> Result<Ranges, TimesRefusal>
        ensures { AskedTimes low high result }
    {
        if !low.are_within(high) {
            return Err(TimesRefusal::Unordered);
        }
        if !are_short(low, high) {
            return Err(TimesRefusal::TooLong);
        }
        Ok(Ranges { low, high })
    }
}

fn are_short(low: Kinds, high: Kinds) -> bool
    ensures { result ≡ short_times (times_between low high) }
{
    low.are_at_most(1000000) && high.are_at_most(1000000)
}
