// What the program says of its own.
use crate::tally::Tally;

pub fn usage(rt: &impl Print) {
    let _ = println!(rt; "usage: sheets PLAN OUT");
}

pub fn done(rt: &impl Print, tally: Tally) {
    let Tally {
        boards,
        entries,
        without,
    } = tally;
    let _ = println!(rt;
        "{boards} boards, {entries} entries, {without} pairs without a clear choice"
    );
}
