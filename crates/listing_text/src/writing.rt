// The listing: its text into lent bytes, or 12 where they are fewer than the text's.
ghost use Rattle.std.specs.Prelude.{◌≡◌, ◌≤◌};
ghost use Rattle.numbers.specs.Refusals.{answer_number};
ghost use Rattle.sheet.specs.Output.{room_error, written, out_after};
ghost use Rattle.listing_text.specs.Text.{listing_of};
ghost use Rattle.listing_text.specs.Steps.{head_of, Put};

use crate::checks::{check_listing, source_in};
use crate::lent::Lent;
use crate::said::{Head, Routes, Said};
use machine::node::count;
use numbers::Refusal;
use plan::layout::{count_in, shape_in};
use planner::outcomes::outcomes;

fn head_of(plan: &[u8], source: u16) -> Head
    ensures { result ≡ head_of plan.now source }
{
    Head {
        source,
        nodes: count(shape_in(plan)),
        faults: count_in(plan),
    }
}

// Writes the text, as far as there is room, and answers its length.
fn put<S: Said>(out: &mut [u8], said: &S) -> usize
    ensures { Put out.old out.new 0 result (S.text said.now) }
{
    let mut lent = Lent { out, at: 0 };
    said.put(&mut lent);
    lent.at
}

// The text is first written to no bytes, for its length. Not inlined, so that the outcomes are not laid out on the stack once more.
#[inline(never)]
fn write<S: Said>(out: &mut [u8], said: &S) -> Result<usize, Refusal>
    ensures value { result ≡ written (room_error 0 (S.text said.now) out.old) (S.text said.now) }
    ensures number { answer_number result ≡ room_error 0 (S.text said.now) out.old }
    ensures out_after { out.new ≡ out_after (room_error 0 (S.text said.now) out.old) (S.text said.now) out.old }
{
    let size = put(&mut [], said);
    if out.len() < size {
        return Err(Refusal::OutputShort);
    }
    Ok(put(out, said))
}

// The input is a two-byte source, then a plan sheet.
pub fn listing_text(input: &[u8], out: &mut [u8]) -> Result<usize, Refusal>
    ensures value { result ≡ written (room_error 0 (listing_of input.now) out.old) (listing_of input.now) }
    ensures number { answer_number result ≡ room_error 0 (listing_of input.now) out.old }
    ensures out_after { out.new ≡ out_after (room_error 0 (listing_of input.now) out.old) (listing_of input.now) out.old }
{
    match check_listing(input) {
        Err(refusal) => write(out, &refusal),
        Ok(()) => {
            let plan = &input[2..];
            let source = source_in(input);
            let all = outcomes(plan, source);
            write(
                out,
                &Routes {
                    head: head_of(plan, source),
                    outcomes: &all,
                },
            )
        }
    }
}
