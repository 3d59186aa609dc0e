// Why nothing is printed of the calls: the first question on the times that is answered no.
ghost use Rattle.std.specs.Prelude.{◌≡◌};
ghost use Rattle.bus_tool.specs.Refusals.{number};

#[derive(Clone, Copy, Debug, PartialEq, Eq)]
pub enum TimesRefusal {
    // A low time is above its high one.
    Unordered,
    // A time is above 1,000,000.
    TooLong,
}

// The question's number in document 01 and in the requests.
impl From<TimesRefusal> for u32 {
    ghost from_gives = { λ r n. n ≡ number r };

    fn from(refusal: TimesRefusal) -> u32 {
        match refusal {
            TimesRefusal::Unordered => 21,
            TimesRefusal::TooLong => 22,
        }
    }
}
