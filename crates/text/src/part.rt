// Parts of a text.
ghost use Rattle.std.specs.Prelude.{◌≡◌, ◌+◌, ◌-◌, min, length, take, drop};
ghost use Rattle.text.specs.Scan.{index_of};

use crate::scan::find;

// The first `n` bytes, as far as there are so many.
#[tactic(auto, using(crate::proofs::Parts::take_min))]
pub fn front(s: &[u8], n: usize) -> &[u8]
    ensures result_value { result.now ≡ take n s.now }
    ensures result_len { length result.now ≡ min n (length s.now) }
{
    &s[..n.min(s.len())]
}

// The same of bytes that are lent to be written.
pub fn front_mut(s: &mut [u8], n: usize) -> &mut [u8] {
    let end = n.min(s.len());
    &mut s[..end]
}

// The bytes from `start` up to, not including, `end`, as far as there are such bytes.
#[tactic(auto, using(crate::proofs::Parts::cut_both))]
pub fn part(s: &[u8], start: usize, end: usize) -> &[u8]
    ensures { result.now ≡ take (end - start) (drop start s.now) }
{
    let to = end.min(s.len());
    &s[start.min(to)..to]
}

// What stands before the first `byte`; all of `s` where there is none.
pub fn before(s: &[u8], byte: u8) -> &[u8]
    ensures { result.now ≡ take (index_of byte s.now) s.now }
{
    front(s, find(s, 0, byte))
}

// What stands after the first `byte`; nothing where there is none.
#[tactic(auto, using(crate::proofs::Parts::take_rest))]
pub fn after(s: &[u8], byte: u8) -> &[u8]
    ensures { result.now ≡ drop (index_of byte s.now + 1) s.now }
{
    part(s, find(s, 0, byte) + 1, s.len())
}
