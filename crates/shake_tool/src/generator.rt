// The generator of draws.
ghost use Rattle.std.specs.Prelude.{◌≡◌, ◌*◌, ◌%◌, ◌<◌};
ghost use Rattle.shake_spec.specs.Generator.{next as «next_of», below as «below_of»};

// Its state, a 32-bit number. The seed is the state before the first draw.
#[derive(Clone, Copy)]
pub struct Generator {
    pub state: u32,
}

impl Generator {
    // The state moves on, and what the new one yields, mod m.
    pub fn draw(&mut self, m: u32) -> u32
        requires { 0 < m }
        ensures moved { self.new.state ≡ «next_of» self.old.state }
        ensures drawn { result ≡ «below_of» m self.new.state }
        ensures bound { result < m }
    {
        self.state = wrapping_product(1664525, self.state).wrapping_add(1013904223);
        self.state / 65536 % m
    }
}

// The product, wrapping at 32 bits.
// Stays (4): document 01 asks for a wrapping product of the program's own here, proved equal to the remainder (its forms, CR 6).
fn wrapping_product(a: u32, b: u32) -> u32
    ensures { result ≡ a * b % 4294967296 }
{
    (u64::from(a) * u64::from(b) % 4294967296) as u32
}
