// Why an entry refuses: the first question that is answered no.
ghost use Rattle.std.specs.Prelude.{◌≡◌};
ghost use Rattle.cells_spec.specs.Answers.{number};

#[derive(Clone, Copy, Debug, PartialEq, Eq)]
pub enum Refusal {
    // Of an open: how many tasks, cells and blocks there may be, and how many values; a value is none.
    Tasks,
    Cells,
    Blocks,
    ValueCount,
    NoneAmongValues,
    // The state handed in is not fit.
    Unfit,
    NoSuchTask,
    NoSuchCell,
    // The task has a call, or has none.
    Busy,
    ReservedValue,
    Idle,
    // The task has offered on the once-only cell before.
    AlreadyOffered,
    NoUnusedBlock,
    // An add's tries.
    Tries,
}

// The question's number in document 01 and in the requests.
impl From<Refusal> for u32 {
    ghost from_gives = { λ r n. n ≡ number r };

    fn from(refusal: Refusal) -> u32 {
        match refusal {
            Refusal::Tasks => 1,
            Refusal::Cells => 2,
            Refusal::Blocks => 3,
            Refusal::ValueCount => 4,
            Refusal::NoneAmongValues => 5,
            Refusal::Unfit => 6,
            Refusal::NoSuchTask => 7,
            Refusal::NoSuchCell => 8,
            Refusal::Busy => 9,
            Refusal::ReservedValue => 10,
            Refusal::Idle => 11,
            Refusal::AlreadyOffered => 16,
            Refusal::NoUnusedBlock => 20,
            Refusal::Tries => 23,
        }
    }
}
