// The set of the other ends of the legs that have one end at a place and meet a loss at another, along one dimension.
ghost use Rattle.std.specs.Prelude.{◌≡◌, eqb, ◌≤◌, ◌<◌};
ghost use Rattle.rows.specs.Bits.{row_of};
ghost use Rattle.masks.specs.End.{begins};
ghost use Rattle.masks.specs.Masks.{end_cell};
ghost use Rattle.masks.specs.Ranges.{between_row, ways_row, crosses_row, takes_row, link_row, links_row, before_row, behind_row};

use crate::end::End;
use crate::range::{ones, range};
use crate::row::{between_row, useful_row, ways_row};
use logic::pick;
use machine::leg::Mode;
use shape::axis::Axis;

// The legs along a dimension that have one end at the place `at`. `ways`: the other ends for which a deterministic leg goes plus.
#[derive(Drop)]
pub struct Fan {
    mode: Mode,
    end: End,
    axis: Axis,
    at: u8,
    ways: u16,
    ghost few: { axis.len ≤ 16 },
    ghost there: { at < axis.len },
    ghost goes: { ways ≡ ways_row (begins end) axis.len axis.ring at },
}

impl Fan {
    pub fn new(mode: Mode, end: End, axis: Axis, at: u8) -> Self
        requires { (axis.len ≤ 16) × (at < axis.len) }
        ensures { (result.mode ≡ mode) × (result.end ≡ end) × (result.axis ≡ axis) × (result.at ≡ at) }
    {
        let ways = ways_row(end, axis, at);
        Fan {
            mode,
            end,
            axis,
            at,
            ways,
        }
    }

    // Those for which some shortest way takes the link that leaves c, plus or minus.
    fn crosses_row(&self, plus: bool, c: u8) -> u16
        requires { c < self.now.axis.len }
        ensures { result ≡ crosses_row (begins self.now.end) self.now.axis.len self.now.axis.ring plus c self.now.at }
    {
        let row = between_row(self.axis, c, self.at);
        match self.end {
            End::Start => row & useful_row(self.axis, c, plus),
            End::Target => pick(self.axis.useful(c, self.at, plus), row, 0),
        }
    }

    // Those for which the leg takes it.
    fn takes_row(&self, plus: bool, c: u8) -> u16
        ensures { result ≡ takes_row self.now.mode (begins self.now.end) self.now.axis.len self.now.axis.ring plus c self.now.at }
    {
        if self.axis.len <= c {
            return 0;
        }
        let row = self.crosses_row(plus, c);
        match self.mode {
            Mode::Adaptive => row,
            Mode::Deterministic => row & pick(plus, self.ways, 65535 - self.ways),
        }
    }

    // The link that leaves c going plus, either way.
    fn link_row(&self, c: u8) -> u16
        ensures { result ≡ link_row self.now.mode (begins self.now.end) self.now.axis.len self.now.axis.ring c self.now.at }
    {
        if self.axis.len <= c {
            return 0;
        }
        let plus = self.takes_row(true, c);
        let minus = self.takes_row(false, self.axis.next_place(c, true));
        plus | minus
    }

    // That link, or the one that comes to c so.
    fn links_row(&self, c: u8) -> u16
        ensures { result ≡ links_row self.now.mode (begins self.now.end) self.now.axis.len self.now.axis.ring c self.now.at }
    {
        let leaves = self.link_row(c);
        let comes = self.link_row(self.axis.next_place(c, false));
        leaves | comes
    }

    // Those for which c lies between.
    fn passes_row(&self, c: u8) -> u16
        ensures { result ≡ between_row self.now.axis.len self.now.axis.ring c self.now.at }
    {
        if self.axis.len <= c {
            return 0;
        }
        between_row(self.axis, c, self.at)
    }

    // The other end alone is at c.
    fn other_row(&self, c: u8) -> u16
        ensures { result ≡ row_of (λ x. eqb c x) self.now.axis.len }
    {
        if self.axis.len <= c {
            return 0;
        }
        range(c, c + 1)
    }

    // All, where the end itself is at c.
    fn own_row(&self, c: u8) -> u16
        ensures { result ≡ row_of (λ x. eqb c self.now.at) self.now.axis.len }
    {
        pick(c == self.at, ones(self.axis.len) as u16, 0)
    }

    fn before_row(&self, c: u8) -> u16
        ensures { result ≡ before_row self.now.mode (begins self.now.end) self.now.axis.len self.now.axis.ring c self.now.at }
    {
        match (self.mode, self.end) {
            (Mode::Adaptive, _) => self.passes_row(c),
            (Mode::Deterministic, End::Start) => self.other_row(c),
            (Mode::Deterministic, End::Target) => self.own_row(c),
        }
    }

    fn behind_row(&self, c: u8) -> u16
        ensures { result ≡ behind_row self.now.mode (begins self.now.end) self.now.axis.len self.now.axis.ring c self.now.at }
    {
        match (self.mode, self.end) {
            (Mode::Adaptive, _) => self.passes_row(c),
            (Mode::Deterministic, End::Start) => self.own_row(c),
            (Mode::Deterministic, End::Target) => self.other_row(c),
        }
    }

    // A column by its number, which is its place among the masks.
    pub fn mask(&self, column: u8, c: u8) -> u16
        ensures { result ≡ row_of (end_cell self.now.mode (begins self.now.end) self.now.axis.len self.now.axis.ring column c self.now.at) self.now.axis.len }
    {
        match column {
            0 => self.before_row(c),
            1 => self.takes_row(true, c),
            2 => self.takes_row(false, c),
            3 => self.behind_row(c),
            4 => self.link_row(c),
            _ => self.links_row(c),
        }
    }
}
