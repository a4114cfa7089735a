// A packet on its way, as a walk carries it along a leg: the hops left to the leg's target, and beside them those of each direction (`Ways`). The
// coordinates of the leg's ends are worked out once a leg.
ghost use Rattle.std.specs.Prelude.{◌≡◌, ◌≤◌};
ghost use Rattle.packet.specs.Packet.{most_legs};
ghost use Rattle.packet.specs.Steps.{Fine, front_or, settled};
ghost use Rattle.packet.specs.Course.{course_in, packet_of, end_of, course_of, ways_of};

use crate::packet::Packet;
use machine::hop::{hops_at, number_at};
use machine::leg::{Leg, Mode};
use machine::number::coords_of;
use machine::ways::{Ways, standing, ways};
use shape::{Coords, Shape};

#[derive(Clone, Copy)]
pub struct Course {
    pub mark: u8,
    pub mode: Mode,
    pub hops: u16,
    pub to: Coords,
}

// A course and its ways, as they are worked out where a leg begins. Flat, so that a walk reads each field as it was stored: one read of several that were
// just stored apart waits for them.
#[derive(Clone, Copy)]
pub struct Start {
    pub mark: u8,
    pub mode: Mode,
    pub hops: u16,
    pub x: u8,
    pub y: u8,
    pub z: u8,
    pub ways: Ways,
}

impl Start {
    pub fn course(self) -> Course
        ensures { result ≡ course_in self }
    {
        Course {
            mark: self.mark,
            mode: self.mode,
            hops: self.hops,
            to: Coords {
                x: self.x,
                y: self.y,
                z: self.z,
            },
        }
    }
}

// The current leg; a leg of zeros where none is left.
fn front_or(packet: Packet) -> Leg
    requires { packet.count ≤ most_legs }
    ensures { result ≡ front_or packet }
{
    packet.front().unwrap_or(Leg {
        target: 0,
        mode: Mode::Adaptive,
    })
}

impl Course {
    // The course of a packet with the drops stored.
    pub fn of(packet: Packet, shape: Shape) -> Start
        requires { Fine shape packet }
        ensures { (course_in result ≡ course_of shape (settled packet)) × (result.ways ≡ ways_of shape (settled packet)) }
    {
        let ready = packet.drop_all();
        let front = front_or(ready);
        let at = coords_of(shape, ready.node);
        let to = coords_of(shape, front.target);
        let ways = ways(front.mode, shape, at, to);
        Start {
            mark: ready.mark,
            mode: front.mode,
            hops: hops_at(shape, at, to),
            x: to.x,
            y: to.y,
            z: to.z,
            ways,
        }
    }

    // The packet at the end of its leg. The rest of it is as it was lent.
    pub fn end(self, shape: Shape, lent: Packet) -> Packet
        ensures { result ≡ end_of shape lent self }
    {
        lent.put(number_at(shape, self.to), self.mark)
    }

    pub fn packet(self, shape: Shape, lent: Packet, ways: &Ways) -> Packet
        ensures { result ≡ packet_of shape lent self ways.now }
    {
        lent.put(number_at(shape, standing(shape, ways, self.to)), self.mark)
    }
}
