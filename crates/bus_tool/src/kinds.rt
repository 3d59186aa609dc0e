// The kinds of access.
ghost use Rattle.std.specs.Prelude.{◌≡◌, ◌+◌, ◌*◌, ◌≤◌};
ghost use Rattle.bus_spec.specs.Bus.{at_most, ordered, total};
ghost use Rattle.bus_tool.specs.Kinds.{kinds_of, times_between};

// A number for each: how many accesses, or the time of one in tenths of a nanosecond.
#[derive(Clone, Copy)]
pub struct Kinds {
    pub load: u32,
    pub store: u32,
    pub hardware: u32,
}

impl Kinds {
    pub fn are_at_most(self, n: u32) -> bool
        ensures { result ≡ at_most n (kinds_of self) }
    {
        self.load <= n && self.store <= n && self.hardware <= n
    }

    pub fn are_within(self, high: Kinds) -> bool
        ensures { result ≡ ordered (times_between self high) }
    {
        self.load <= high.load && self.store <= high.store && self.hardware <= high.hardware
    }

    // The time of so many accesses.
    pub fn total(self, counts: Kinds) -> u64
        requires { counts.load + counts.store + counts.hardware ≤ 21 }
        ensures { result ≡ total (kinds_of self) (kinds_of counts) }
    {
        product(self.load, counts.load)
            + product(self.store, counts.store)
            + product(self.hardware, counts.hardware)
    }
}

// A call does at most 21 accesses, so no product wraps.
fn product(time: u32, count: u32) -> u64
    requires { count ≤ 21 }
    ensures { (result ≡ time * count) × (result ≤ 90194313195) }
{
    u64::from(time) * u64::from(count)
}
