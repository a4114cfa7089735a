// Numbers in decimal digits.
ghost use Rattle.std.specs.Prelude.{◌≡◌};
ghost use Rattle.text.specs.Decimal.{AtMost, ReadAs, longer_by, number_of};

// The number `value` with one more digit `b`, if `b` is a digit and the number is at most `most`.
#[tactic(auto, unfolding(crate::specs::Decimal::is_digit, crate::specs::Decimal::longer_by))]
fn longer(value: u64, b: u8, most: u64) -> Option<u64>
    ensures { result ≡ longer_by most value b }
{
    if !b.is_ascii_digit() {
        return None;
    }
    let more = value.checked_mul(10)?.checked_add(u64::from(b - b'0'))?;
    (more <= most).then_some(more)
}

// The number of which `s` has the digits, one or more, if it is at most `most`.
pub fn read(s: &[u8], most: u64) -> Option<u64>
    ensures value { result ≡ number_of most s.now }
    ensures at_most { AtMost most result }
{
    if s.is_empty() {
        return None;
    }
    let mut value: u64 = 0;
    for b in s {
        value = longer(value, *b, most)?;
    }
    Some(value)
}

// The same for a number of the type `T`.
pub fn read_as<T: TryFrom<u64>>(s: &[u8]) -> Option<T>
where
    T::Error: Drop,
    ensures { ReadAs T.try_from_gives (number_of u64.MAX s.now) result }
{
    T::try_from(read(s, u64::MAX)?).ok()
}
