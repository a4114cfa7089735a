// A packet: its source and whole route, each leg a target and a mode, its present node, and a mark on the current leg.
ghost use Rattle.std.specs.Prelude.{◌≡◌, ◌≤◌, ◌<◌};
ghost use Rattle.packet.specs.Packet.{most_legs, route_of, packet_with, put, outside, packet_error};
ghost use Rattle.numbers.specs.Refusals.{answer_number};
ghost use Rattle.packet.specs.Steps.{leg_at, front_if, ends_here, settled};

use logic::either;
use machine::leg::Leg;
use machine::number::node_count;
use numbers::Refusal;
use shape::Shape;

// The legs of a route, at most three.
pub const MOST_LEGS: usize = 3;

pub type Legs = [Leg; MOST_LEGS];

// The route is the first `count` of `legs`. The legs left are those from number `mark` on, counted from 0; where `mark` is `count` none is.
#[derive(Clone, Copy)]
pub struct Packet {
    pub source: u16,
    pub node: u16,
    pub legs: Legs,
    pub count: u8,
    pub mark: u8,
}

impl Packet {
    // Any packet, by its fields.
    pub fn with(source: u16, node: u16, legs: Legs, count: u8, mark: u8) -> Packet
        ensures { result ≡ packet_with source node legs count mark }
    {
        Packet {
            source,
            node,
            legs,
            count,
            mark,
        }
    }

    // The packet at another node with another mark.
    pub(crate) fn put(self, node: u16, mark: u8) -> Packet
        ensures { result ≡ put self node mark }
    {
        Packet { node, mark, ..self }
    }

    pub(crate) fn leg(self, i: u8) -> Leg
        requires { i < most_legs }
        ensures { result ≡ leg_at self i }
    {
        self.legs[i as usize]
    }

    // The current leg, if one is left.
    pub(crate) fn front(self) -> Option<Leg>
        requires { self.count ≤ most_legs }
        ensures { result ≡ front_if self }
    {
        if self.mark < self.count {
            Some(self.leg(self.mark))
        } else {
            None
        }
    }

    // A leg is left, and the current leg's target is the present node.
    pub(crate) fn ends_here(self) -> bool
        requires { self.count ≤ most_legs }
        ensures { result ≡ ends_here self }
    {
        self.front().is_some_and(|leg| leg.target == self.node)
    }

    // The packet with the drops stored.
    pub(crate) fn drop_all(self) -> Packet
        requires { self.count ≤ most_legs }
        ensures { result ≡ settled self }
    {
        let mut next = self;
        while next.ends_here() {
            next.mark += 1;
        }
        next
    }

    // A leg of the route names a node outside the shape.
    fn leg_outside(self, nodes: u32) -> bool
        requires { self.count ≤ most_legs }
        ensures { result ≡ outside nodes (route_of self) }
    {
        self.legs[..self.count as usize]
            .iter()
            .any(|leg| nodes <= leg.target as u32)
    }

    // Check 5, 6, then 14.
    pub fn check(self, shape: Shape) -> Result<(), Refusal>
        ensures { answer_number result ≡ packet_error shape self }
    {
        shape.check()?;
        if MOST_LEGS < self.count as usize {
            return Err(Refusal::WrongPacket);
        }
        let nodes = node_count(shape);
        let named = either(nodes <= self.node as u32, self.leg_outside(nodes));
        let outside = either(nodes <= self.source as u32, named);
        if either(self.count < self.mark, outside) {
            return Err(Refusal::WrongPacket);
        }
        Ok(())
    }
}
