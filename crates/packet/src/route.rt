// A route, and the new packet of it.
ghost use Rattle.std.specs.Prelude.{◌≡◌};
ghost use Rattle.machine.specs.Torus.{leg};
ghost use Rattle.packet.specs.New.{legs_to, source_packet, new_packet};

use crate::packet::{MOST_LEGS, Packet};
use machine::leg::{Leg, Mode};

// A route to a destination: one leg, two legs by a via, or three by two vias.
#[derive(Clone, Copy)]
pub enum Route {
    Direct(Mode),
    Via(u16, Mode, Mode),
    Vias(u16, u16, Mode, Mode, Mode),
}

// A leg to `target` in mode `mode`.
fn leg_to(target: u16, mode: Mode) -> Leg
    ensures { result ≡ leg target mode }
{
    Leg { target, mode }
}

// The packet at the source with its mark on the first leg, which may end there.
fn at_source(source: u16, dest: u16, route: Route) -> Packet
    ensures { result ≡ source_packet source (legs_to dest route) }
{
    match route {
        Route::Direct(mode) => {
            let leg = leg_to(dest, mode);
            Packet::with(source, source, [leg; MOST_LEGS], 1, 0)
        }
        Route::Via(via, first, second) => {
            let front = leg_to(via, first);
            let last = leg_to(dest, second);
            Packet::with(source, source, [front, last, front], 2, 0)
        }
        Route::Vias(via, further, first, second, third) => {
            let front = leg_to(via, first);
            let middle = leg_to(further, second);
            let last = leg_to(dest, third);
            Packet::with(source, source, [front, middle, last], 3, 0)
        }
    }
}

impl Packet {
    // A new packet is at the source of its route, with the mark on its first leg still to travel.
    pub fn new(source: u16, dest: u16, route: Route) -> Packet
        ensures { result ≡ new_packet source (legs_to dest route) }
    {
        at_source(source, dest, route).drop_all()
    }
}
