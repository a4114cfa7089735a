// Writing a text into lent bytes, from the start or a place on. What does not fit is cut.
ghost use Rattle.std.specs.Prelude.{◌≡◌, ◌+◌, ◌-◌, ◌≤◌, ◌<◌, min, length, set, take};
ghost use Rattle.std.proofs.Math.Seq.{paste};

// The bytes, and how many of them are written.
#[derive(Drop)]
pub struct Writer<'a> {
    pub out: &'a mut [u8],
    pub at: usize,
    pub ghost within: { at ≤ length out.now },
}

// The digit of a value below 16.
fn glyph(n: u8) -> u8
    requires { n < 16 }
{
    if n < 10 { b'0' + n } else { b'a' + (n - 10) }
}

// The first `count` bytes of `s` into `out`, from `at` on. A loop, since `copy_from_slice` wants memmove, and the C library has memcpy and memset alone.
fn copy(out: &mut [u8], at: usize, s: &[u8], count: usize)
    requires { (count ≤ length s.now) × (at + count ≤ length out.old) }
    ensures { out.new ≡ paste out.old at s.now count }
{
    for i in 0..count {
        out[at + i] = s[i];
    }
}

impl<'a> Writer<'a> {
    pub fn new(out: &'a mut [u8]) -> Writer<'a>
        ensures same { result.out.ghost_name ≡ out.entry.ghost_name }
        ensures out { result.out.now ≡ out.old }
        ensures at { result.at ≡ 0 }
    {
        Writer { out, at: 0 }
    }

    // From a place on; one past the end counts as the end.
    pub fn from_place(out: &'a mut [u8], at: usize) -> Writer<'a>
        ensures same { result.out.ghost_name ≡ out.entry.ghost_name }
        ensures out { result.out.now ≡ out.old }
        ensures at { result.at ≡ min at (length out.old) }
    {
        let at = at.min(out.len());
        Writer { out, at }
    }

    // Writes what fits of `s`.
    pub fn text(&mut self, s: &[u8])
        ensures same { self.new.out.ghost_name ≡ self.old.out.ghost_name }
        ensures at { self.new.at ≡ min (self.old.at + length s.now) (length self.old.out.now) }
        ensures out { self.new.out.now ≡ paste self.old.out.now self.old.at s.now (self.new.at - self.old.at) }
    {
        let count = s.len().min(self.out.len() - self.at);
        copy(self.out, self.at, s, count);
        self.at += count;
    }

    // Writes one byte, if it fits.
    pub fn byte(&mut self, b: u8)
        ensures same { self.new.out.ghost_name ≡ self.old.out.ghost_name }
        ensures at { self.new.at ≡ min (self.old.at + 1) (length self.old.out.now) }
        ensures out { self.new.out.now ≡ set self.old.out.now self.old.at b }
    {
        if self.at < self.out.len() {
            self.out[self.at] = b;
            self.at += 1;
        }
    }

    // Writes the digits of `n`.
    pub fn number(&mut self, n: u64)
        ensures same { self.new.out.ghost_name ≡ self.old.out.ghost_name }
    {
        if 10 <= n {
            self.number(n / 10);
        }
        self.byte(b'0' + (n % 10) as u8);
    }

    // Writes a key, '=' included, and a number.
    pub fn field(&mut self, key: &[u8], n: u64)
        ensures same { self.new.out.ghost_name ≡ self.old.out.ghost_name }
    {
        self.text(key);
        self.number(n);
    }

    // Writes the bytes in hexadecimal digits; '-' where there is none.
    pub fn hex(&mut self, s: &[u8])
        ensures same { self.new.out.ghost_name ≡ self.old.out.ghost_name }
    {
        if s.is_empty() {
            self.byte(b'-');
        }
        for b in s {
            self.byte(glyph(b / 16));
            self.byte(glyph(b % 16));
        }
    }

    // What is written.
    pub fn written(self) -> &'a [u8]
        ensures { result.now ≡ take self.entry.at self.entry.out.now }
    {
        let Writer { out, at } = self;
        &out[..at]
    }
}
