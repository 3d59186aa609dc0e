// A page: a lent buffer with the place up to which it is written.
ghost use Rattle.std.specs.Prelude.{◌≡◌, ◌+◌, ◌≤◌, length};
ghost use Rattle.text.specs.Append.{Appended};
ghost use Rattle.text.specs.Bytes.{decimal, digits as «digits_of»};
ghost use Rattle.text.specs.Lines.{line, numbers as «numbers_of», bad_line};
ghost use Rattle.text.specs.Page.{Written};

#[derive(Drop)]
pub struct Page<'a> {
    pub bytes: &'a mut [u8],
    pub at: usize,
}

impl<'a> Page<'a> {
    // An empty page.
    pub fn new(bytes: &'a mut [u8]) -> Page<'a>
        ensures bytes { result.bytes.now ≡ bytes.old }
        ensures at { result.at ≡ 0 }
        ensures same { result.bytes.ghost_name ≡ bytes.entry.ghost_name }
    {
        Page { bytes, at: 0 }
    }

    // Appends a text.
    pub fn put(&mut self, text: &[u8])
        requires { self.old.at + length text.now ≤ length self.old.bytes.now }
        ensures { Written self.old self.new text.now }
    {
        let at = self.at;
        let end = at + text.len();
        self.bytes[at..end].copy_from_slice(text);
        self.at = end;
    }

    // Appends n in decimal.
    // Stays (4): Display writes to a fmt::Write that may fail; with the room proved there is no error to hand up.
    pub fn number(&mut self, n: u64)
        requires { self.old.at + length (decimal n) ≤ length self.old.bytes.now }
        ensures { Written self.old self.new (decimal n) }
    {
        // Most numbers have one digit.
        if n < 10 {
            self.put(&[48 + (n % 10) as u8]);
            return;
        }
        self.at = digits(self.bytes, self.at, 20, n);
    }

    // Appends numbers, each after a space.
    pub fn numbers(&mut self, l: &[u64])
        requires { self.old.at + length («numbers_of» l.now) ≤ length self.old.bytes.now }
        ensures { Written self.old self.new («numbers_of» l.now) }
    {
        for n in l {
            self.put(b" ");
            self.number(*n);
        }
    }

    // Appends a line that ends in numbers.
    pub fn line(&mut self, start: &[u8], l: &[u64])
        requires { self.old.at + length (line start.now l.now) ≤ length self.old.bytes.now }
        ensures { Written self.old self.new (line start.now l.now) }
    {
        self.put(start);
        self.numbers(l);
        self.put(b")\n");
    }

    // Appends a refusal.
    pub fn bad(&mut self, n: u32)
        requires { self.old.at + 67 ≤ length self.old.bytes.now }
        ensures written { Written self.old self.new (bad_line n) }
        ensures upper_bound { self.new.at ≤ self.old.at + 67 }
    {
        self.line(b"(bad", &[u64::from(n)]);
    }
}

// Writes n at a place, in at most k digits.
// Stays (6): a method that keeps the place on the page was tried: a session of many refused actions then took 1.3 times the instructions.
fn digits(out: &mut [u8], at: usize, k: usize, n: u64) -> usize
    requires { at + length («digits_of» k n) ≤ length out.old }
    ensures { Appended out.old out.new at result («digits_of» k n) }
{
    if k == 0 {
        return at;
    }
    if n < 10 {
        out[at] = 48 + (n % 10) as u8;
        return at + 1;
    }
    let next = digits(out, at, k - 1, n / 10);
    out[next] = 48 + (n % 10) as u8;
    next + 1
}
