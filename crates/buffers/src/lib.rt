// The buffers of the programs, and how large they are.
#![tactic(auto)]

ghost use Rattle.std.specs.Prelude.{◌≡◌, length};
ghost use Rattle.buffers.specs.Space.{zeros};

// One byte more than a session may have, so that a longer one is noticed.
pub const FILE: usize = 65537;

// As many bytes as a session may have; the longest that is drawn has fewer.
pub const SESSION: usize = 65536;

// Enough for what a session prints: 14 bytes an action, 65,535 times, what the calls then pending have put by, a line of each cell and the
// end.
pub const TEXT: usize = 921000;

// For what moments and bus print: a line of at most 32 bytes for each action and each task, with some to spare.
pub const LINES: usize = 2400000;

// A new buffer. Its promise is shut: a proof that wrote millions of zeros out would run out of room.
pub fn zeroed<const N: usize>() -> [u8; N]
    ensures value { result ≡ zeros N }
    ensures value_2 { N ≡ length result }
{
    [0; N]
}
