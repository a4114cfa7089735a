// The fields of a line. A line is words with one blank between them: the first names an operation, and each other is a key, '=' and a value.
ghost use Rattle.std.specs.Prelude.{◌≡◌, take};
ghost use Rattle.text.specs.Scan.{index_of};

use crate::part::before;

// The first word of a line.
pub fn first_word(line: &[u8]) -> &[u8]
    ensures { result.now ≡ take (index_of 32 line.now) line.now }
{
    before(line, b' ')
}

// The value of the first word that begins with `key`, '=' included; no bytes where there is no such word.
pub fn value<'a>(line: &'a [u8], key: &[u8]) -> &'a [u8] {
    line.split(|b| *b == b' ')
        .find_map(|word| word.strip_prefix(key))
        .unwrap_or(b"")
}
