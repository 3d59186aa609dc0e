// Why no nudge is sought.
ghost use Rattle.std.specs.Prelude.{◌≡◌};
ghost use Rattle.nudge_tool.specs.Refusals.{number};

#[derive(Clone, Copy, Debug, PartialEq, Eq)]
pub enum NudgeRefusal {
    TooManyActions,
    // The named call does not finish.
    NoSuchCall,
}

// The question's number in document 01 and in the requests.
impl From<NudgeRefusal> for u32 {
    ghost from_gives = { λ r n. n ≡ number r };

    fn from(refusal: NudgeRefusal) -> u32 {
        match refusal {
            NudgeRefusal::TooManyActions => 19,
            NudgeRefusal::NoSuchCall => 18,
        }
    }
}
