// The places of a mask one by one.
ghost use Rattle.std.specs.Prelude.{◌≡◌, ◌≤◌, ◌-◌};
ghost use Rattle.std.specs.Iterator.{at_most};
ghost use Rattle.rows.specs.NextSet.{NextSet};
ghost use Rattle.search.specs.Listed.{Onward};

use rows::next::next_set;

// Those below `len`, from the lowest on; `next` is the one to come, if it is below.
#[derive(Clone, Copy)]
pub struct Listed {
    pub mask: u16,
    pub len: u8,
    pub next: u8,
    pub ghost small: { len ≤ 16 },
}

impl Listed {
    // All sixteen.
    pub fn new(mask: u16) -> Listed
        ensures { (result.mask ≡ mask) × (result.len ≡ 16) × NextSet mask 0 result.next }
    {
        Listed {
            mask,
            len: 16,
            next: next_set(mask, 0),
        }
    }
}

impl Iterator for Listed {
    type Item = u8;

    ghost next_gives = { λ s r t. (t.mask ≡ s.mask) × (t.len ≡ s.len) × Onward s.mask s.len s.next r t.next };

    ghost remaining = { λ s. at_most (s.len - s.next) };

    fn next(&mut self) -> Option<u8> {
        let x = self.next;
        if self.len <= x {
            return None;
        }
        self.next = next_set(self.mask, x + 1);
        Some(x)
    }
}
