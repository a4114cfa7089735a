// What was written: sheets, their entries, and among these the pairs without a clear choice.
ghost use Rattle.std.specs.Prelude.{◌≡◌, List, ℕ, ◌+◌, ◌-◌, ◌≤◌, ◌<◌, min, length};
ghost use Rattle.sheet.specs.Bytes.{word};
ghost use Rattle.routes.specs.Layout.{entries_of};
ghost use Rattle.planner.specs.Run.{joined};
ghost use Rattle.sheets.specs.Tally.{is_without, without_in, no_tally, tallied, tallied_all, EachSized};

use program::count::sum;
use routes::kinds::NONE_KIND;
use routes::layout::{count_in, entry_in};
use sheet::word_at;

#[derive(Clone, Copy, Default)]
pub struct Tally {
    pub boards: u32,
    pub entries: u32,
    pub without: u32,
}

fn is_without(kind: u8) -> u32
    ensures { result ≡ is_without kind }
{
    u32::from(kind == NONE_KIND)
}

fn without_in(sheet: &[u8]) -> u32
    ensures { result ≡ without_in (entries_of sheet.now) }
{
    let mut without = 0;
    for i in 0..count_in(sheet) {
        without += is_without(entry_in(sheet, i).kind);
    }
    without
}

// The bytes of the sheet that a run begins with: three, and those that its length field says, as far as there are such bytes.
fn first_size(run: &[u8]) -> usize
    requires { 0 < length run.now }
    ensures value { result ≡ min (3 + word run.now 1) (length run.now) }
    ensures lower_bound { 1 ≤ result }
{
    (3 + word_at(run, 1)).min(run.len())
}

impl Tally {
    pub fn none() -> Tally
        ensures { result ≡ no_tally }
    {
        Tally::default()
    }

    // With one sheet more.
    #[tactic(auto, unfolding(crate::specs::Tally::tallied))]
    fn add(self, sheet: &[u8]) -> Tally
        ensures { result ≡ tallied self sheet.now }
    {
        Tally {
            boards: sum(self.boards, 1),
            entries: sum(self.entries, count_in(sheet) as u32),
            without: sum(self.without, without_in(sheet)),
        }
    }

    // With the sheets of a run; each says its own length.
    pub fn add_run(self, run: &[u8]) -> Tally
        ensures { (sheets : List (List ℕ)) → EachSized sheets → run.now ≡ joined sheets → result ≡ tallied_all self sheets }
    {
        let mut sum = self;
        let mut rest = run;
        while !rest.is_empty() {
            let (sheet, behind) = rest.split_at(first_size(rest));
            sum = sum.add(sheet);
            rest = behind;
        }
        sum
    }
}
