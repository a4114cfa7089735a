// What a leg from a to t meets of a loss at the place c, along one dimension. Defined for all numbers, also for places that do not exist.
ghost use Rattle.std.specs.Prelude.{◌≡◌};
ghost use Rattle.machine.specs.Hop.{rule};
ghost use Rattle.legs.specs.Between.{between, crosses, agree, runs};
ghost use Rattle.masks.specs.Cell.{takes, takes_link, takes_links, passes_before, passes_behind, cell};

use logic::{both, either, pick};
use machine::hop::goes_plus;
use machine::leg::Mode;
use shape::axis::Axis;

fn agree(a: bool, b: bool) -> bool
    ensures { result ≡ agree a b }
{
    pick(a, b, !b)
}

// A leg along one dimension.
#[derive(Drop)]
pub struct Run {
    pub mode: Mode,
    pub axis: Axis,
    pub a: u8,
    pub t: u8,
}

impl Run {
    // Whether c is between its ends.
    fn between(&self, c: u8) -> bool
        ensures { result ≡ between self.now.axis.len self.now.axis.ring c self.now.a self.now.t }
    {
        let first = self.axis.hops(self.a, c) as u16;
        let last = self.axis.hops(c, self.t) as u16;
        let whole = self.axis.hops(self.a, self.t) as u16;
        both(c < self.axis.len, first + last == whole)
    }

    // Whether some shortest way takes the link that leaves c, plus or minus.
    fn crosses(&self, plus: bool, c: u8) -> bool
        ensures { result ≡ crosses self.now.axis.len self.now.axis.ring plus c self.now.a self.now.t }
    {
        both(self.between(c), self.axis.useful(c, self.t, plus))
    }

    // Whether the one way takes that link.
    fn runs(&self, plus: bool, c: u8) -> bool
        ensures { result ≡ runs rule self.now.axis.len self.now.axis.ring plus c self.now.a self.now.t }
    {
        both(
            self.crosses(plus, c),
            agree(goes_plus(self.axis, self.a, self.t), plus),
        )
    }

    fn takes(&self, plus: bool, c: u8) -> bool
        ensures { result ≡ takes self.now.mode self.now.axis.len self.now.axis.ring plus c self.now.a self.now.t }
    {
        match self.mode {
            Mode::Adaptive => self.crosses(plus, c),
            Mode::Deterministic => self.runs(plus, c),
        }
    }

    // The link that leaves c going plus, either way.
    fn takes_link(&self, c: u8) -> bool
        ensures { result ≡ takes_link self.now.mode self.now.axis.len self.now.axis.ring c self.now.a self.now.t }
    {
        let plus = self.takes(true, c);
        let minus = self.takes(false, self.axis.next_place(c, true));
        either(plus, both(c < self.axis.len, minus))
    }

    // That link, or the one that comes to c so.
    fn takes_links(&self, c: u8) -> bool
        ensures { result ≡ takes_links self.now.mode self.now.axis.len self.now.axis.ring c self.now.a self.now.t }
    {
        let leaves = self.takes_link(c);
        let comes = self.takes_link(self.axis.next_place(c, false));
        either(leaves, comes)
    }

    fn passes_before(&self, c: u8) -> bool
        ensures { result ≡ passes_before self.now.mode self.now.axis.len self.now.axis.ring c self.now.a self.now.t }
    {
        match self.mode {
            Mode::Adaptive => self.between(c),
            Mode::Deterministic => c == self.t,
        }
    }

    fn passes_behind(&self, c: u8) -> bool
        ensures { result ≡ passes_behind self.now.mode self.now.axis.len self.now.axis.ring c self.now.a self.now.t }
    {
        match self.mode {
            Mode::Adaptive => self.between(c),
            Mode::Deterministic => c == self.a,
        }
    }

    // One of these, by the number of a column, which is its place among the masks.
    pub fn cell(&self, column: u16, c: u8) -> bool
        ensures { result ≡ cell self.now.mode self.now.axis.len self.now.axis.ring column c self.now.a self.now.t }
    {
        match column {
            0 => self.passes_before(c),
            1 => self.takes(true, c),
            2 => self.takes(false, c),
            3 => self.passes_behind(c),
            4 => self.takes_link(c),
            _ => self.takes_links(c),
        }
    }
}
