// The places of a dimension that pass a test, as the bits of a mask.
ghost use Rattle.std.specs.Prelude.{◌≡◌, ℕ, Bool, ◌≤◌, ◌<◌};
ghost use Rattle.rows.specs.Bits.{row_of};

use logic::pick;

pub fn row_where<F: Fn(u8) -> bool>(len: u8, passes: F) -> u16
    requires small { len ≤ 16 }
    requires callable { (c : ℕ) → c < len → F.pre passes c }
    ensures { (f : ℕ → Bool) → ((c : ℕ) (b : Bool) → c < len → F.post passes c b → b ≡ f c) → result ≡ row_of f len }
{
    let mut row: u32 = 0;
    let mut bit: u32 = 1;
    for c in 0..len {
        row += pick(passes(c), bit, 0);
        bit *= 2;
    }
    row as u16
}
