// Bytes in pairs of hexadecimal digits, in lower case; '-' alone is no bytes.
ghost use Rattle.std.specs.Prelude.{◌≤◌, ◌<◌, length, IfSome};

// The value of a digit.
fn digit(b: u8) -> Option<u8>
    ensures { IfSome result (λ n. n < 16) }
{
    match b {
        b'0'..=b'9' => Some(b - b'0'),
        b'a'..=b'f' => Some(b - b'a' + 10),
        _ => None,
    }
}

fn pair(high: u8, low: u8) -> Option<u8> {
    Some(16 * digit(high)? + digit(low)?)
}

// Reads the bytes that `s` spells into the front of `out`, and answers them; `None` where the text is not of this form, or the bytes do not fit.
pub fn read<'a>(s: &[u8], out: &'a mut [u8]) -> Option<&'a [u8]>
    ensures { IfSome result (λ r. length r.now ≤ length out.old) }
{
    if s == b"-".as_slice() {
        return Some(&out[..0]);
    }
    if s.is_empty() || s.len() % 2 != 0 {
        return None;
    }
    let room = out.get_mut(..s.len() / 2)?;
    for (b, two) in room.iter_mut().zip(s.chunks_exact(2)) {
        *b = pair(two[0], two[1])?;
    }
    Some(room)
}
