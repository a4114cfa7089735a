// The plan's checks, then 13.
ghost use Rattle.std.specs.Prelude.{◌≡◌, not, ◌&&◌, eqb};
ghost use Rattle.numbers.specs.Refusals.{answer_number};
ghost use Rattle.plan.specs.Checks.{large};
ghost use Rattle.routes.specs.Layout.{entries_of};
ghost use Rattle.routes.specs.Checks.{head_good, is_via, via_good, entry_good, next_good, entries_good, sheet_good, sheet_error};

use crate::kinds::{has_via, has_vias, is_plain};
use crate::layout::{
    ENTRIES_AT, Entry, Format, count_in, entry_in, format_in, size_after, source_in,
};
use logic::both;
use machine::node::is_node;
use numbers::Refusal;
use plan::layout::shape_in;
use shape::Shape;
use sheet::head::{length_is, version_in};

// The head of a sheet, in a format.
pub fn head_good(sheet: &[u8], format: Format) -> bool
    ensures { result ≡ head_good format sheet.now }
{
    let known = both(
        ENTRIES_AT <= sheet.len(),
        version_in(sheet) == format.version,
    );
    both(known, length_is(sheet, size_after(format, count_in(sheet))))
}

// A source on a machine. By it the entries of its sheet are judged.
#[derive(Clone, Copy)]
pub struct Origin {
    pub shape: Shape,
    pub source: u16,
}

impl Origin {
    // Whether v is a node that is neither end.
    fn is_via(self, dest: u16, v: u16) -> bool
        ensures { result ≡ is_via self.shape self.source dest v }
    {
        both(is_node(self.shape, v), both(v != self.source, v != dest))
    }

    fn one_good(self, e: Entry) -> bool
        ensures { result ≡ (is_via self.shape self.source e.dest e.via && eqb e.second 0) }
    {
        both(self.is_via(e.dest, e.via), e.second == 0)
    }

    fn two_good(self, e: Entry) -> bool
        ensures { result ≡ (is_via self.shape self.source e.dest e.via && (is_via self.shape self.source e.dest e.second && not (eqb e.via e.second))) }
    {
        let second = both(self.is_via(e.dest, e.second), e.via != e.second);
        both(self.is_via(e.dest, e.via), second)
    }

    fn via_good(self, e: Entry) -> bool
        ensures { result ≡ via_good self.shape self.source e }
    {
        if has_vias(e.kind) {
            return self.two_good(e);
        }
        if has_via(e.kind) {
            return self.one_good(e);
        }
        both(is_plain(e.kind), both(e.via == 0, e.second == 0))
    }

    fn entry_good(self, e: Entry) -> bool
        ensures { result ≡ entry_good self.shape self.source e }
    {
        let dest = both(is_node(self.shape, e.dest), e.dest != self.source);
        both(dest, self.via_good(e))
    }

    // Whether an entry may follow those before it. `least`: the least that its destination may be.
    pub fn next_good(self, least: u32, e: Entry) -> bool
        ensures { result ≡ next_good self.shape self.source least e }
    {
        both(least <= (e.dest as u32), self.entry_good(e))
    }

    fn entries_good(self, sheet: &[u8]) -> bool
        ensures { result ≡ entries_good self.shape self.source 0 (entries_of sheet.now) }
    {
        let mut least: u32 = 0;
        for i in 0..count_in(sheet) {
            let e = entry_in(sheet, i);
            if !self.next_good(least, e) {
                return false;
            }
            least = (e.dest as u32) + 1;
        }
        true
    }
}

fn sheet_good(shape: Shape, sheet: &[u8]) -> bool
    ensures { result ≡ sheet_good shape sheet.now }
{
    if !head_good(sheet, format_in(sheet)) {
        return false;
    }
    let source = source_in(sheet);
    let origin = Origin { shape, source };
    both(is_node(shape, source), origin.entries_good(sheet))
}

// The first check that declines the sheet under the plan.
#[tactic(auto, using(theory::proofs::Checks::declining), unfolding(crate::specs::Checks::sheet_error, crate::specs::Checks::error_in))]
pub fn check(plan: &[u8], sheet: &[u8]) -> Result<(), Refusal>
    ensures { answer_number result ≡ sheet_error large plan.now sheet.now }
{
    plan::check(plan)?;
    if !sheet_good(shape_in(plan), sheet) {
        return Err(Refusal::WrongRouteSheet);
    }
    Ok(())
}
