// Question 13 of a session file: brackets, spaces and lines.
ghost use Rattle.std.specs.Prelude.{◌≡◌, ◌<◌};
ghost use Rattle.session_spec.specs.Shape.{fits as «fits_of», deeper as «deeperOf», shaped as «shapedOf»};

// Whether b may stand after p, with d brackets open.
#[tactic(auto, unfolding(session_spec::specs::Shape::fits))]
fn fits(d: usize, p: u8, b: u8) -> bool
    ensures { result ≡ «fits_of» d p b }
{
    match b {
        b'(' => (d < 8) & ((p == 10) | ((p == b'(') | (p == b' '))),
        b')' => (0 < d) & !(p == b' '),
        b' ' => (0 < d) & !((p == b'(') | (p == b' ')),
        10 => (d == 0) & (p == b')'),
        _ => (0 < d) & !(p == b')'),
    }
}

// The open brackets after b.
#[tactic(auto, unfolding(session_spec::specs::Shape::deeper))]
fn deeper(d: usize, b: u8) -> usize
    requires { d < 65536 }
    ensures { result ≡ «deeperOf» d b }
{
    match b {
        b'(' => d + 1,
        b')' => d.saturating_sub(1),
        _ => d,
    }
}

// Whether the text is forms in brackets, one a line.
pub fn shaped(s: &[u8]) -> bool
    ensures { result ≡ «shapedOf» s.now }
{
    let mut d = 0;
    let mut p: u8 = 10;
    for b in s {
        if !fits(d, p, *b) {
            return false;
        }
        d = deeper(d, *b);
        p = *b;
    }
    p == 10
}
