// What a listing says: the routes, or a refusal.
ghost use Rattle.std.specs.Prelude.{◌≡◌, ◌≤◌, ℕ, List};
ghost use Rattle.numbers.specs.Refusals.{number};
ghost use Rattle.listing_text.specs.Text.{refusal};
ghost use Rattle.listing_text.specs.Steps.{Wrote, outcome_lines, outcomes_text};

use crate::header::put_header;
use crate::lent::Lent;
use crate::line::put_line;
use crate::refusal::put_refusal;
use choice::Outcome;
use numbers::Refusal;

// What the first line says.
#[derive(Clone, Copy)]
pub struct Head {
    pub source: u16,
    pub nodes: u16,
    pub faults: u16,
}

// What planning answers, a line for each destination.
#[derive(Clone, Copy)]
pub struct Routes<'a> {
    pub head: Head,
    pub outcomes: &'a [Outcome; 4096],
    ghost few: { head.nodes ≤ 4096 },
}

pub trait Said {
    ghost text: { Self → List ℕ };

    // Writes the text from the front on.
    fn put(&self, lent: &mut Lent<'_>)
        requires { lent.old.at ≡ 0 }
        ensures { Wrote lent.old lent.new (text self.now) };
}

impl Said for Refusal {
    ghost text = { λ e. refusal (number e) };

    fn put(&self, lent: &mut Lent<'_>) {
        let refusal = *self;
        put_refusal(lent, refusal.number());
    }
}

impl Said for Routes<'_> {
    ghost text = { λ r. outcomes_text r.head r.outcomes.now };

    fn put(&self, lent: &mut Lent<'_>) {
        let head = self.head;
        put_header(lent, head.source, head.nodes, head.faults);
        put_lines(lent, self.outcomes, head.nodes as usize);
    }
}

// Writes the lines of the first `all` destinations.
fn put_lines(lent: &mut Lent<'_>, outcomes: &[Outcome; 4096], all: usize)
    requires { (lent.old.at ≤ 18) × (all ≤ 4096) }
    ensures { Wrote lent.old lent.new (outcome_lines outcomes.now all) }
{
    for d in 0..all {
        put_line(lent, d as u16, outcomes[d]);
    }
}
