// Why no session is drawn: the first question that is answered no.
ghost use Rattle.std.specs.Prelude.{◌≡◌};
ghost use Rattle.shake_tool.specs.Refusals.{number};

#[derive(Clone, Copy, Debug, PartialEq, Eq)]
pub enum ShakeRefusal {
    Tasks,
    Cells,
    Blocks,
    // Fewer than 1 or more than 3,000 actions.
    Count,
}

// The question's number in document 01 and in the requests.
impl From<ShakeRefusal> for u32 {
    ghost from_gives = { λ r n. n ≡ number r };

    fn from(refusal: ShakeRefusal) -> u32 {
        match refusal {
            ShakeRefusal::Tasks => 1,
            ShakeRefusal::Cells => 2,
            ShakeRefusal::Blocks => 3,
            ShakeRefusal::Count => 17,
        }
    }
}
