// Ranges of places as the bits of a number, and turned round a ring.
ghost use Rattle.std.specs.Prelude.{◌≡◌, ◌||◌, ℕ, ◌-◌, ◌^◌, ◌≤◌, ◌<◌};
ghost use Rattle.shape.specs.Steps.{ahead};
ghost use Rattle.rows.specs.Bits.{bit, row_of};
ghost use Rattle.masks.specs.Ranges.{in_range};

// The n lowest bits.
pub fn ones(n: u8) -> u32
    requires { n ≤ 16 }
    ensures { (result ≡ 2 ^ n - 1) × (result ≤ 65535) }
{
    let top = 1u32 << (n as u32);
    top - 1
}

// The bits from lo on below hi.
pub fn range(lo: u8, hi: u8) -> u16
    requires { (lo ≤ 16) × (hi ≤ 16) }
    ensures { (n : ℕ) → hi ≤ n → n ≤ 16 → result ≡ row_of (in_range lo hi) n }
{
    let below = ones(hi) as u16;
    let under = ones(lo) as u16;
    below & (65535 - under)
}

// Moved up by p, and what comes past the end from the start on.
pub fn turned(len: u8, p: u8, m: u16) -> u16
    requires { (len ≤ 16) × (p < len) × (m < 2 ^ len) }
    ensures { result ≡ row_of (λ x. bit m (ahead len p x)) len }
{
    let up = (m as u32) << (p as u32);
    let round = up >> (len as u32);
    ((up | round) & ones(len)) as u16
}

// The hops going plus from p to q.
pub fn hops(len: u8, p: u8, q: u8) -> u8
    requires { (p < len) × (q < len) }
    ensures { (result ≡ ahead len p q) × (result < len) }
{
    if p <= q { q - p } else { len - (p - q) }
}

// The places whose hops from p lie in a range.
pub fn arc(len: u8, p: u8, lo: u8, hi: u8) -> u16
    requires { (len ≤ 16) × (p < len) × (lo ≤ 16) × (hi ≤ len) }
    ensures { result ≡ row_of (λ x. in_range lo hi (ahead len p x)) len }
{
    turned(len, p, range(lo, hi))
}

// Or in another.
pub fn arcs(len: u8, p: u8, lo: u8, hi: u8, lo2: u8, hi2: u8) -> u16
    requires { (len ≤ 16) × (p < len) × (lo ≤ 16) × (hi ≤ len) × (lo2 ≤ 16) × (hi2 ≤ len) }
    ensures { result ≡ row_of (λ x. in_range lo hi (ahead len p x) || in_range lo2 hi2 (ahead len p x)) len }
{
    turned(len, p, range(lo, hi) | range(lo2, hi2))
}
