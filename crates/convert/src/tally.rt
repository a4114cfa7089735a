// What is found in the file.
ghost use Rattle.std.specs.Prelude.{◌≡◌};
ghost use Rattle.numbers.specs.Refusals.{number, answer_number};
ghost use Rattle.convert.specs.Tally.{lost_at, lost_refusal, named, no_tally, tallied, ended};

use numbers::Refusal;
use program::count::sum;
use routes::layout::{FIRST_VERSION, entry_by, kind_byte, one_via, source_in};

// A sheet that cannot be converted, by its place in the file, from 1; with 17 also its source, and the kind and the destination of the first entry that cannot
// be kept.
#[derive(Clone, Copy)]
pub enum Lost {
    Declined(u32, Refusal),
    NotKept {
        place: u32,
        source: u16,
        kind: u8,
        dest: u16,
    },
}

// The sheets read, how many of them can be converted, and the one that a refusal names.
#[derive(Clone, Copy, Default)]
pub struct Tally {
    pub sheets: u32,
    pub kept: u32,
    pub lost: Option<Lost>,
}

// The refusal of the sheet at a place.
#[tactic(auto, unfolding(crate::specs::Tally::lost_at))]
fn lost_at(place: u32, refusal: Refusal, entry: u16, sheet: &[u8]) -> Lost
    ensures { result ≡ lost_at place refusal entry sheet.now }
{
    match refusal {
        Refusal::EntryNotKept => {
            let format = one_via(FIRST_VERSION);
            let e = entry_by(sheet, format, entry);
            Lost::NotKept {
                place,
                source: source_in(sheet),
                kind: kind_byte(sheet, format, entry),
                dest: e.dest,
            }
        }
        _ => Lost::Declined(place, refusal),
    }
}

// The first refusal stays, but for a damaged sheet, which ends the job.
#[tactic(auto, unfolding(crate::specs::Tally::named))]
fn named(before: Option<Lost>, place: u32, refusal: Refusal, entry: u16, sheet: &[u8]) -> Lost
    ensures { result ≡ named before place refusal entry sheet.now }
{
    match before {
        Some(lost) if refusal != Refusal::WrongRouteSheet => lost,
        _ => lost_at(place, refusal, entry, sheet),
    }
}

impl Lost {
    pub fn refusal(self) -> Refusal
        ensures { result ≡ lost_refusal self }
    {
        match self {
            Lost::Declined(_, refusal) => refusal,
            Lost::NotKept { .. } => Refusal::EntryNotKept,
        }
    }
}

impl Tally {
    pub fn none() -> Tally
        ensures { result ≡ no_tally }
    {
        Tally::default()
    }

    // With one sheet more: what the converter answers, and with 17 the first entry that cannot be kept.
    #[tactic(auto, unfolding(crate::specs::Tally::tallied))]
    pub fn add(self, sheet: &[u8], answer: Result<usize, Refusal>, entry: u16) -> Tally
        ensures { result ≡ tallied self sheet.now (answer_number answer) entry }
    {
        let place = sum(self.sheets, 1);
        match answer {
            Ok(_) => Tally {
                sheets: place,
                kept: sum(self.kept, 1),
                lost: self.lost,
            },
            Err(refusal) => Tally {
                sheets: place,
                kept: self.kept,
                lost: Some(named(self.lost, place, refusal, entry, sheet)),
            },
        }
    }

    // At the end of the file. One without a sheet is no file of sheets.
    #[tactic(auto, unfolding(crate::specs::Tally::ended))]
    pub fn ended(self) -> Tally
        ensures { result ≡ ended self }
    {
        if self.sheets != 0 {
            return self;
        }
        Tally {
            sheets: 0,
            kept: 0,
            lost: Some(Lost::Declined(0, Refusal::WrongRouteSheet)),
        }
    }
}
