// What the program says of its own.
use crate::tally::{Lost, Tally};
use std::fmt;

pub fn usage(rt: &impl Print) {
    let _ = println!(rt; "usage: convert PLAN OLD OUT");
}

pub fn done(rt: &impl Print, tally: Tally) {
    let Tally { sheets, kept, .. } = tally;
    let _ = println!(rt; "{kept} of {sheets} sheets converted");
}

// Which sheet it is that cannot be converted; with 17, by which entry.
impl fmt::Display for Lost {
    fn fmt<W: fmt::Write>(&self, f: &mut fmt::Formatter<W>) -> fmt::Result {
        match *self {
            Lost::Declined(place, _) => write!(f, "sheet {place}"),
            Lost::NotKept {
                place,
                source,
                kind,
                dest,
            } => write!(
                f,
                "sheet {place}, of board {source}, by its entry of kind {kind} to board {dest}"
            ),
        }
    }
}

pub fn declined(rt: &impl Print, tally: Tally, lost: Lost) {
    let number = lost.refusal().number();
    let Tally { sheets, kept, .. } = tally;
    if sheets == 0 {
        let _ = println!(rt; "refused {number}: there is no sheet");
        return;
    }
    let _ = println!(rt;
        "refused {number}: {kept} of {sheets} sheets can be converted, the first that cannot is {lost}"
    );
}
