// Writing a sheet into lent bytes.
ghost use Rattle.std.specs.Prelude.{◌≡◌, ◌≤◌, ◌++◌, length, drop};
ghost use Rattle.numbers.specs.Refusals.{answer_number};
ghost use Rattle.sheet.specs.Output.{room_error, written, out_after, written_size};

use numbers::Refusal;

// 0, or the number of the refusal.
pub fn number<T: Drop>(answer: Result<T, Refusal>) -> u8
    ensures { result ≡ answer_number answer }
{
    match answer {
        Ok(_) => 0,
        Err(refusal) => refusal.number(),
    }
}

// How many bytes are written.
pub fn size(answer: Result<usize, Refusal>) -> usize
    ensures { result ≡ written_size answer }
{
    answer.unwrap_or(0)
}

// The bytes of `s` to the front of `out`. A loop, since `copy_from_slice` wants memmove, and the C library has memcpy and memset alone.
fn copy(s: &[u8], out: &mut [u8])
    requires { length s.now ≤ length out.old }
    ensures { out.new ≡ s.now ++ drop (length s.now) out.old }
{
    for i in 0..s.len() {
        out[i] = s[i];
    }
}

// The sheet `s`, whose own checks gave `checked`, into `out`: then 12, and the output past the sheet is untouched.
pub fn put_sheet(s: &[u8], checked: Result<(), Refusal>, out: &mut [u8]) -> Result<usize, Refusal>
    ensures value { result ≡ written (room_error (answer_number checked) s.now out.old) s.now }
    ensures number { answer_number result ≡ room_error (answer_number checked) s.now out.old }
    ensures out_after { out.new ≡ out_after (room_error (answer_number checked) s.now out.old) s.now out.old }
{
    checked?;
    if out.len() < s.len() {
        return Err(Refusal::OutputShort);
    }
    copy(s, out);
    Ok(s.len())
}
