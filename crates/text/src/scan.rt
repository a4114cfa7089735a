// Where something stands in a text.
ghost use Rattle.std.specs.Prelude.{◌≡◌, ◌==◌, ◌+◌, ◌≤◌, min, length, drop, position};
ghost use Rattle.text.specs.Scan.{index_of};

// The place of the first `byte`.
fn place_of(s: &[u8], byte: u8) -> Option<usize>
    ensures { result ≡ position (λ b. b == byte) s.now }
{
    s.iter().position(|b| *b == byte)
}

// The same; the length where there is none.
#[tactic(auto, using(crate::proofs::Places::place_or_end))]
fn index_in(s: &[u8], byte: u8) -> usize
    ensures value { result ≡ index_of byte s.now }
    ensures upper_bound { result ≤ length s.now }
{
    place_of(s, byte).unwrap_or(s.len())
}

// The place of the first `byte` at or after `from`; the length where there is none.
pub fn find(s: &[u8], from: usize, byte: u8) -> usize
    ensures value { result ≡ min from (length s.now) + index_of byte (drop from s.now) }
    ensures upper_bound { result ≤ length s.now }
{
    let start = from.min(s.len());
    start + index_in(&s[start..], byte)
}

// The place where `text` first begins in `s`; the length where it does not occur.
pub fn find_text(s: &[u8], text: &[u8]) -> usize
    ensures { result ≤ length s.now }
{
    (0..s.len())
        .find(|i| s[*i..].starts_with(text))
        .unwrap_or(s.len())
}
