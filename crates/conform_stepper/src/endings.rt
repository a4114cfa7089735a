// How walks end, as text.
use packet::Ending;
use text::writer::Writer;

pub(crate) fn put_ending(writer: &mut Writer, ending: Ending) {
    writer.text(match ending {
        Ending::Arrived => b"arrived".as_slice(),
        Ending::NotAllowed => b"not-allowed",
        Ending::UsedUp => b"used-up",
        Ending::Refused(_) => b"refused",
    });
}
