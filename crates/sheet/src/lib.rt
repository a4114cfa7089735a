// The bytes of sheets: single bytes and two-byte numbers, the upper byte first. Every call is total: a byte past the end reads as 0, and writing there
// changes nothing.
#![tactic(auto)]

pub mod head;
pub mod output;

ghost use Rattle.std.specs.Prelude.{◌≡◌, ◌+◌, ◌*◌, ◌<◌, set};
ghost use Rattle.sheet.specs.Bytes.{byte, word, upper_byte, lower_byte, put_word};

pub fn byte_at(s: &[u8], at: usize) -> u8
    ensures { result ≡ byte s.now at }
{
    s.get(at).copied().unwrap_or(0)
}

fn joined(upper: u8, lower: u8) -> usize
    ensures value { result ≡ upper * 256 + lower }
    ensures upper_bound { result < 65536 }
{
    u16::from_be_bytes([upper, lower]).into()
}

pub fn word_at(s: &[u8], at: usize) -> usize
    ensures value { result ≡ word s.now at }
    ensures upper_bound { result < 65536 }
{
    if at < s.len() {
        joined(byte_at(s, at), byte_at(s, at + 1))
    } else {
        0
    }
}

pub fn put_byte(s: &mut [u8], at: usize, b: u8)
    ensures { s.new ≡ set s.old at b }
{
    if at < s.len() {
        s[at] = b;
    }
}

pub fn upper(n: u16) -> u8
    ensures { result ≡ upper_byte n }
{
    n.to_be_bytes()[0]
}

pub fn lower(n: u16) -> u8
    ensures { result ≡ lower_byte n }
{
    n.to_be_bytes()[1]
}

pub fn put_word(s: &mut [u8], at: usize, n: u16)
    ensures { s.new ≡ put_word s.old at n }
{
    if at < s.len() {
        put_byte(s, at, upper(n));
        put_byte(s, at + 1, lower(n));
    }
}
