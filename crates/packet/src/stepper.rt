// The step and the walk.
ghost use Rattle.std.specs.Prelude.{◌≡◌, ◌≤◌, length};
ghost use Rattle.numbers.specs.Refusals.{answer_number};
ghost use Rattle.theory.specs.Packet.{walk_number, step, walk, goes};
ghost use Rattle.machine.specs.Torus.{torus};
ghost use Rattle.packet.specs.Packet.{stored};
ghost use Rattle.packet.specs.Answers.{ending_number, told, told_walk};
ghost use Rattle.packet.specs.Steps.{Fine, stepped, Gives};
ghost use Rattle.packet.specs.Course.{packet_of, kept_of, walked};

use crate::course::Course;
use crate::packet::Packet;
use machine::hop::{allowed_at, moved_at, number_at};
use machine::number::coords_of;
use machine::ways::{Ways, take};
use numbers::Refusal;
use shape::Shape;

// What a step, or taking a hop back, answers: the packet after it; or the packet as it was, and why.
#[derive(Clone, Copy)]
pub struct Stepped {
    pub packet: Packet,
    pub answer: Result<(), Refusal>,
}

// How a walk ends: arrived; a direction not allowed; bytes used up; or refused by its checks.
#[derive(Clone, Copy)]
pub enum Ending {
    Arrived,
    NotAllowed,
    UsedUp,
    Refused(Refusal),
}

impl Ending {
    pub fn number(self) -> u8
        ensures { result ≡ ending_number self }
    {
        match self {
            Ending::Arrived => 0,
            Ending::NotAllowed => Refusal::NotAllowed.number(),
            Ending::UsedUp => 0,
            Ending::Refused(refusal) => refusal.number(),
        }
    }
}

#[derive(Clone, Copy)]
pub struct Walked {
    pub packet: Packet,
    pub hops: usize,
    pub ending: Ending,
}

// The packet that a walk hands back: only a hop stores the drops.
fn kept(lent: Packet, shape: Shape, hops: usize, course: Course, ways: &Ways) -> Packet
    ensures { result ≡ kept_of lent hops (packet_of shape lent course ways.now) }
{
    if hops == 0 {
        return lent;
    }
    course.packet(shape, lent, ways)
}

// What a walk hands back after some hops.
fn ended(
    lent: Packet,
    shape: Shape,
    hops: usize,
    course: Course,
    ways: &Ways,
    ending: Ending,
) -> Walked
    ensures { result ≡ walked (kept_of lent hops (packet_of shape lent course ways.now)) hops ending }
{
    Walked {
        packet: kept(lent, shape, hops, course, ways),
        hops,
        ending,
    }
}

// One hop a byte, until the packet has arrived, a direction is not allowed or the bytes are used up.
fn walk_on(lent: Packet, shape: Shape, dirs: &[u8]) -> Walked
    requires { Fine shape lent }
    ensures { result ≡ told_walk (goes (torus shape) (stored shape) lent dirs.now) }
{
    let count = lent.count;
    let start = Course::of(lent, shape);
    let mut way = start.course();
    let mut ways = start.ways;
    for (hops, &dir) in dirs.iter().enumerate() {
        if count <= way.mark {
            return ended(lent, shape, hops, way, &ways, Ending::Arrived);
        }
        if !take(&mut ways, way.mode, dir) {
            return ended(lent, shape, hops, way, &ways, Ending::NotAllowed);
        }
        way.hops -= 1;
        if way.hops == 0 {
            let next = Course::of(way.end(shape, lent), shape);
            way = next.course();
            ways = next.ways;
        }
    }
    if count <= way.mark {
        return ended(lent, shape, dirs.len(), way, &ways, Ending::Arrived);
    }
    ended(lent, shape, dirs.len(), way, &ways, Ending::UsedUp)
}

impl Packet {
    // The packet after a call that gives another; or, where it declines, the packet as it was.
    pub(crate) fn stepped(self, next: Result<Packet, Refusal>) -> Stepped
        ensures { result ≡ stepped self next }
    {
        match next {
            Ok(packet) => Stepped {
                packet,
                answer: Ok(()),
            },
            Err(refusal) => Stepped {
                packet: self,
                answer: Err(refusal),
            },
        }
    }

    fn hop(self, shape: Shape, dir: u8) -> Result<Packet, Refusal>
        ensures { Gives self (step (torus shape) (stored shape) self dir) result }
    {
        self.check(shape)?;
        let ready = self.drop_all();
        let Some(front) = ready.front() else {
            return Err(Refusal::NotAllowed);
        };
        let at = coords_of(shape, ready.node);
        let to = coords_of(shape, front.target);
        if !allowed_at(front.mode, shape, at, to, dir) {
            return Err(Refusal::NotAllowed);
        }
        let moved = ready.put(number_at(shape, moved_at(shape, at, dir)), ready.mark);
        Ok(moved.drop_all())
    }

    // The packet after one allowed hop; or the packet as it was, with 5, 6, 14 or 15.
    pub fn step(self, shape: Shape, dir: u8) -> Stepped
        ensures value { result ≡ told (step (torus shape) (stored shape) self dir) }
        ensures answer_value { answer_number result.answer ≡ (step (torus shape) (stored shape) self dir).number }
    {
        self.stepped(self.hop(shape, dir))
    }

    // A walk over the lent directions, one hop a byte: the packet, the hops taken and the ending.
    pub fn walk(self, shape: Shape, dirs: &[u8]) -> Walked
        ensures value { result ≡ told_walk (walk (torus shape) (stored shape) self dirs.now) }
        ensures ending_value { ending_number result.ending ≡ walk_number (walk (torus shape) (stored shape) self dirs.now).ending }
        ensures hops_in_bounds { result.hops ≤ length dirs.now }
    {
        match self.check(shape) {
            Ok(()) => walk_on(self, shape, dirs),
            Err(refusal) => Walked {
                packet: self,
                hops: 0,
                ending: Ending::Refused(refusal),
            },
        }
    }
}
