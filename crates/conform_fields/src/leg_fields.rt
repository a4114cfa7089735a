// Legs as text: `target:mode,target:mode`, up to three.
use machine::leg::Mode;
use packet::Route;
use text::writer::Writer;

pub fn put_leg(writer: &mut Writer, target: u16, mode: Mode) {
    writer.number(u64::from(target));
    writer.byte(b':');
    writer.byte(match mode {
        Mode::Adaptive => b'A',
        Mode::Deterministic => b'D',
    });
}

// Writes the legs of a route to `dest`.
pub fn put_route(writer: &mut Writer, dest: u16, route: Route) {
    match route {
        Route::Direct(mode) => put_leg(writer, dest, mode),
        Route::Via(via, first, second) => {
            put_leg(writer, via, first);
            writer.byte(b',');
            put_leg(writer, dest, second);
        }
        Route::Vias(via, further, first, second, third) => {
            put_leg(writer, via, first);
            writer.byte(b',');
            put_leg(writer, further, second);
            writer.byte(b',');
            put_leg(writer, dest, third);
        }
    }
}
