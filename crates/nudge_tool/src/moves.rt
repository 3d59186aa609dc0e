// Where an action stands after an exchange.
ghost use Rattle.std.specs.Prelude.{◌≡◌, ◌<◌};
ghost use Rattle.nudge_spec.specs.Exchange.{moved_to};

// Of action m, where i and the next are exchanged.
pub fn moved_to(i: usize, m: usize) -> usize
    requires { i < 65535 }
    ensures { result ≡ moved_to i m }
{
    if m == i {
        i + 1
    } else if m == i + 1 {
        i
    } else {
        m
    }
}
