// Writing a text into lent bytes.
ghost use Rattle.std.specs.Prelude.{[], ◌∷◌, ◌++◌, ◌+◌, ◌≤◌, length};
ghost use Rattle.listing_text.specs.Decimal.{decimal};
ghost use Rattle.listing_text.specs.Steps.{Wrote, field_text};

use sheet::put_byte;

// The lent bytes, and the place behind what is written. It goes on past the end of the bytes, where nothing is written; a million is far past any text.
#[derive(Drop)]
pub struct Lent<'a> {
    pub out: &'a mut [u8],
    pub at: usize,
}

impl Lent<'_> {
    fn byte(&mut self, b: u8)
        requires { self.old.at ≤ 2000000 }
        ensures { Wrote self.old self.new (b ∷ []) }
    {
        put_byte(self.out, self.at, b);
        self.at += 1;
    }

    pub fn text(&mut self, s: &[u8])
        requires { self.old.at + length s.now ≤ 1000000 }
        ensures { Wrote self.old self.new s.now }
    {
        for b in s {
            self.byte(*b);
        }
    }

    // The digits of `n`.
    fn number(&mut self, n: u16)
        requires { self.old.at ≤ 1000000 }
        ensures wrote { Wrote self.old self.new (decimal n) }
        ensures upper_bound { self.new.at ≤ self.old.at + 5 }
    {
        if n < 10 {
            self.byte(b'0' + n as u8);
            return;
        }
        self.number(n / 10);
        self.byte(b'0' + (n % 10) as u8);
    }

    fn alone(&mut self, field: Option<u16>)
        requires { self.old.at ≤ 1000000 }
        ensures wrote { Wrote self.old self.new (field_text field) }
        ensures upper_bound { self.new.at ≤ self.old.at + 5 }
    {
        match field {
            Some(n) => self.number(n),
            None => self.byte(b'-'),
        }
    }

    // A field, `-` if absent, and the byte after it, a blank or the newline.
    pub fn field(&mut self, field: Option<u16>, after: u8)
        requires { self.old.at ≤ 1000000 }
        ensures wrote { Wrote self.old self.new (field_text field ++ after ∷ []) }
        ensures upper_bound { self.new.at ≤ self.old.at + 6 }
    {
        self.alone(field);
        self.byte(after);
    }
}
