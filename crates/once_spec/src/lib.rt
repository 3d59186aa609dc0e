// One-shot consensus after figure 1 of Luchangco, Moir and Shavit: the types of the once-only cells. What is done with them
// is defined in specs/; the invariant of one cell is proved in proofs/, and so is that tasks agree.
#![tactic(auto)]

// The figure's words, and who has offered there.
// Stays (1): no value and no task are numbers of the state that users hand in; `fresh_cell` and `stage_does` name them so.
#[derive(Clone, Copy, Debug, PartialEq, Eq, Default)]
pub struct OnceCell {
    pub x: u32,
    pub y: u32,
    pub c: u32,
    pub v: u32,
    pub d: u32,
    pub offered: [bool; 32],
}

// What a task's pending call is about to do. Idle: line 0; an opening and a finished call leave every other field 0 too.
#[derive(Clone, Copy, Debug, PartialEq, Eq, Default)]
pub struct Offer {
    // The number of its next step (specs/Figure.antt has the table).
    // Stays (1): users hand the state in with any number here; `offer_fit` asks of it.
    pub line: u32,
    pub cell: u32,
    // The value that it stands for: its own, until it takes over another.
    pub value: u32,
    pub steps: u32,
    // Whether it has attempted its hardware CAS.
    // Stays (1): a flag of the state that users hand in, since `offer_fit` bounds no count of attempts.
    pub tried: bool,
}

// Any state may be opened, the default too; until then every other entry refuses the default by question 6.
// Stays (6): fixed memory, and `once_start` fills all 16 and 32.
#[derive(Clone, Copy, Debug, PartialEq, Eq, Default)]
pub struct OnceState {
    pub tasks: u32,
    pub cells: u32,
    pub words: [OnceCell; 16],
    pub offers: [Offer; 32],
}

// A finished call: the value agreed on its cell, its steps and hardware CAS attempts.
#[derive(Clone, Copy, Debug, PartialEq, Eq)]
pub struct Agreement {
    pub cell: u32,
    pub value: u32,
    pub steps: u32,
    pub hard: u32,
}
