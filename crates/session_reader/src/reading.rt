// What reading a session file hands back.
ghost use Rattle.std.specs.Prelude.{◌≡◌};
ghost use Rattle.session_spec.specs.Session.{arity};
ghost use Rattle.session_reader.specs.Reading.{question};
ghost use Rattle.session_reader.specs.Answers.{kind_of, form_number};

// What the first line says, and how many values and actions are kept.
#[derive(Clone, Copy, Debug, PartialEq, Eq)]
pub struct Session {
    pub tasks: u32,
    pub cells: u32,
    pub blocks: u32,
    pub values: usize,
    pub actions: usize,
}

// Why a file is no session.
#[derive(Clone, Copy, Debug, PartialEq, Eq)]
pub enum ReadError {
    // The buffers have other sizes.
    BufferSizes,
    // Questions 12 to 15: its bytes, its brackets, its forms, its actions.
    TooLong,
    Shape,
    Form,
    TooMany,
}

// The question's number; 0 for buffers of other sizes.
impl From<ReadError> for u32 {
    ghost from_gives = { λ e n. n ≡ question e };

    fn from(error: ReadError) -> u32 {
        match error {
            ReadError::BufferSizes => 0,
            ReadError::TooLong => 12,
            ReadError::Shape => 13,
            ReadError::Form => 14,
            ReadError::TooMany => 15,
        }
    }
}

// The first line: its three numbers, how many values, and the place after it.
#[derive(Clone, Copy)]
pub struct Opened {
    pub tasks: u32,
    pub cells: u32,
    pub blocks: u32,
    pub values: usize,
    pub next: usize,
}

// A form's word.
#[derive(Clone, Copy, Debug, PartialEq, Eq)]
pub enum Keyword {
    Read,
    Swap,
    Step,
    Drop,
    Again,
}

impl Keyword {
    // How many numbers follow it.
    // Stays (4): a property of each word, no conversion.
    pub fn arity(self) -> usize
        ensures { result ≡ arity (kind_of self) }
    {
        match self {
            Keyword::Read => 2,
            Keyword::Swap => 4,
            Keyword::Step | Keyword::Drop | Keyword::Again => 1,
        }
    }
}

// The word that a form's kind is stored as; of again none is stored.
impl From<Keyword> for u32 {
    ghost from_gives = { λ w n. n ≡ form_number (kind_of w) };

    fn from(word: Keyword) -> u32 {
        match word {
            Keyword::Again => 0,
            Keyword::Read => 1,
            Keyword::Swap => 2,
            Keyword::Step => 3,
            Keyword::Drop => 4,
        }
    }
}
