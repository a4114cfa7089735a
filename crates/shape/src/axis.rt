// One dimension: `len` places from 0 on, a ring (wrapped) or open. Defined for all numbers, also for places that do not exist.
ghost use Rattle.std.specs.Prelude.{true, false, ◌≡◌, ◌<◌};
ghost use Rattle.shape.specs.Axis.{axis_hops, has_link, place, axis_useful};
ghost use Rattle.shape.specs.Steps.{ahead, ring_useful, ring_goes, goes};

use logic::{both, either, pick};

#[derive(Clone, Copy)]
pub struct Axis {
    pub len: u8,
    pub ring: bool,
}

impl Axis {
    // The hops from one place to another.
    #[tactic(auto, unfolding(crate::specs::Axis::axis_hops))]
    pub fn hops(self, p: u8, q: u8) -> u8
        ensures { result ≡ axis_hops self.len self.ring p q }
    {
        let d = p.abs_diff(q);
        if !self.ring {
            return d;
        }
        if self.len <= d {
            return 0;
        }
        d.min(self.len - d)
    }

    // Whether a link leaves the place p, plus or minus.
    #[tactic(auto, unfolding(crate::specs::Axis::has_link))]
    pub fn has_link(self, p: u8, plus: bool) -> bool
        ensures { result ≡ has_link self.len self.ring p plus }
    {
        if plus {
            either(self.ring, (p as u16) + 1 < (self.len as u16))
        } else {
            either(self.ring, 0 < p)
        }
    }

    // One place further, and from the last to place 0.
    #[tactic(auto, unfolding(crate::specs::Axis::place))]
    fn place_up(self, p: u8) -> u8
        ensures { result ≡ place self.len p true }
    {
        if (p as u16) + 1 < (self.len as u16) {
            p + 1
        } else {
            0
        }
    }

    // One place back, and from place 0 to the last.
    #[tactic(auto, unfolding(crate::specs::Axis::place))]
    fn place_down(self, p: u8) -> u8
        ensures { result ≡ place self.len p false }
    {
        if 0 < p {
            p - 1
        } else {
            self.len.saturating_sub(1)
        }
    }

    // The place on the other side of that link. Both are worked out and one is chosen, since a walk's directions cannot be foretold.
    #[tactic(auto, unfolding(crate::specs::Axis::place))]
    pub fn next_place(self, p: u8, plus: bool) -> u8
        ensures { result ≡ place self.len p plus }
    {
        pick(plus, self.place_up(p), self.place_down(p))
    }

    // Whether the hop from p, plus or minus, leaves one hop fewer to q. It is called for places that do not exist alone, and kept out of the code that a step runs.
    #[tactic(auto, unfolding(crate::specs::Axis::axis_useful))]
    #[cold]
    fn lowers(self, p: u8, q: u8, plus: bool) -> bool
        ensures { result ≡ axis_useful self.len self.ring p q plus }
    {
        let next = self.next_place(p, plus);
        let after = self.hops(next, q) as u16;
        let before = self.hops(p, q) as u16;
        both(self.has_link(p, plus), after + 1 == before)
    }

    // The hops from p to q going plus, round a ring.
    #[tactic(auto, unfolding(crate::specs::Steps::ahead))]
    fn hops_ahead(self, p: u8, q: u8) -> u8
        requires { (p < self.len) × (q < self.len) }
        ensures { result ≡ ahead self.len p q }
    {
        if p <= q { q - p } else { self.len - (p - q) }
    }

    fn ring_useful(self, up: u8, plus: bool) -> bool
        ensures { result ≡ ring_useful self.len up plus }
    {
        let twice = 2 * (up as u16);
        let len = self.len as u16;
        both(up != 0, pick(plus, twice <= len, len <= twice))
    }

    // Whether the hop from p, plus or minus, is useful toward q: for two places that exist without counting the hops between them.
    #[tactic(auto, using(crate::proofs::AxisLaws::useful_is))]
    pub fn useful(self, p: u8, q: u8, plus: bool) -> bool
        ensures { result ≡ axis_useful self.len self.ring p q plus }
    {
        if self.len <= p {
            return self.lowers(p, q, plus);
        }
        if self.len <= q {
            return self.lowers(p, q, plus);
        }
        if self.ring {
            return self.ring_useful(self.hops_ahead(p, q), plus);
        }
        pick(plus, p < q, q < p)
    }

    // Round a ring: plus below half of it, minus above it.
    fn ring_goes(self, up: u8, tie: bool) -> bool
        ensures { result ≡ ring_goes self.len up tie }
    {
        let twice = 2 * (up as u16);
        let len = self.len as u16;
        both(up != 0, pick(twice == len, tie, twice < len))
    }

    #[tactic(auto, unfolding(crate::specs::Steps::goes))]
    #[cold]
    fn lowers_by(self, p: u8, q: u8, tie: bool) -> bool
        ensures { result ≡ goes (λ _. tie) self.len self.ring p q }
    {
        let plus = self.lowers(p, q, true);
        let minus = self.lowers(p, q, false);
        pick(both(plus, minus), tie, plus)
    }

    // Whether the one way of a deterministic leg from p toward q goes plus. `tie`: whether it does at half a ring.
    #[tactic(auto, using(crate::proofs::Runs::goes_is))]
    pub fn goes_plus(self, p: u8, q: u8, tie: bool) -> bool
        ensures { result ≡ goes (λ _. tie) self.len self.ring p q }
    {
        if self.len <= p {
            return self.lowers_by(p, q, tie);
        }
        if self.len <= q {
            return self.lowers_by(p, q, tie);
        }
        if self.ring {
            return self.ring_goes(self.hops_ahead(p, q), tie);
        }
        p < q
    }
}
