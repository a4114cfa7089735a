// Taking a hop back.
ghost use Rattle.std.specs.Prelude.{◌≡◌, ◌≤◌, ◌<◌};
ghost use Rattle.numbers.specs.Refusals.{answer_number};
ghost use Rattle.theory.specs.Back.{back};
ghost use Rattle.machine.specs.Torus.{torus};
ghost use Rattle.legs.specs.Backward.{backward};
ghost use Rattle.packet.specs.Packet.{most_legs, kept};
ghost use Rattle.packet.specs.Answers.{told};
ghost use Rattle.packet.specs.Steps.{Fine, Gives};
ghost use Rattle.packet.specs.LastHop.{begin_at, last_of, came_on};

use crate::packet::Packet;
use crate::stepper::Stepped;
use legs::crossed::can_cross;
use machine::hop::{moved_at, number_at, opposite};
use machine::number::coords_of;
use numbers::Refusal;
use shape::{Coords, Shape};

impl Packet {
    // Where leg number i of the route begins: at the source, or where the leg before it ends.
    fn begin(self, i: u8) -> u16
        requires { (i ≤ self.count) × (self.count ≤ most_legs) }
        ensures { result ≡ begin_at self i }
    {
        if i == 0 {
            return self.source;
        }
        self.leg(i - 1).target
    }

    // The number of the leg that the last hop was made on, if there is one: the current leg, unless it begins at the present node; then the nearest before it
    // that does not.
    fn last_leg(self) -> Option<u8>
        requires { (self.mark ≤ self.count) × (self.count ≤ most_legs) }
        ensures { result ≡ last_of self self.mark }
    {
        for i in (0..=self.mark).rev() {
            if self.begin(i) != self.node {
                return Some(i);
            }
        }
        None
    }

    // The last hop was made from `from`, in direction dir, on leg number i.
    fn came_on(self, shape: Shape, from: Coords, dir: u8, i: u8) -> bool
        requires { (Fine shape self) × (i < self.count) }
        ensures { result ≡ came_on shape self from dir i }
    {
        let leg = self.leg(i);
        let start = coords_of(shape, self.begin(i));
        let to = coords_of(shape, leg.target);
        can_cross(leg.mode, shape, from, dir, start, to)
    }

    fn hop_back(self, shape: Shape, dir: u8) -> Result<Packet, Refusal>
        ensures { Gives self (back (torus shape) (backward shape) (kept shape) self dir) result }
    {
        self.check(shape)?;
        if self.ends_here() {
            return Err(Refusal::NotBack);
        }
        let Some(last) = self.last_leg() else {
            return Err(Refusal::NotBack);
        };
        if self.count <= last {
            return Err(Refusal::NotBack);
        }
        let from = moved_at(shape, coords_of(shape, self.node), opposite(dir));
        if !self.came_on(shape, from, dir, last) {
            return Err(Refusal::NotBack);
        }
        Ok(self.put(number_at(shape, from), last))
    }

    // The packet before its last hop, which was made in direction dir; or the packet as it was, with 5, 6, 14 or 18.
    pub fn take_back(self, shape: Shape, dir: u8) -> Stepped
        ensures value { result ≡ told (back (torus shape) (backward shape) (kept shape) self dir) }
        ensures answer_value { answer_number result.answer ≡ (back (torus shape) (backward shape) (kept shape) self dir).number }
    {
        self.stepped(self.hop_back(shape, dir))
    }
}
