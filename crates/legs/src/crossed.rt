// Whether some walk of a leg crosses a link, of nodes by their coordinates. Defined for all coordinates, also for those outside the shape.
ghost use Rattle.std.specs.Prelude.{◌≡◌};
ghost use Rattle.machine.specs.Hop.{rule};
ghost use Rattle.legs.specs.Between.{between, crosses, runs};
ghost use Rattle.legs.specs.Crossing.{adaptive_along, adaptive_crosses, deterministic_along, deterministic_crosses, can_cross};

use logic::{both, pick};
use machine::hop::{dim_of, goes_plus, is_plus};
use machine::leg::Mode;
use shape::{Axis, Coords, Dim, Shape};

// The place c lies between p and q, the two ends included.
#[tactic(auto, unfolding(crate::specs::Between::between))]
fn between(axis: Axis, c: u8, p: u8, q: u8) -> bool
    ensures { result ≡ between axis.len axis.ring c p q }
{
    let first = axis.hops(p, c) as u16;
    let second = axis.hops(c, q) as u16;
    let whole = axis.hops(p, q) as u16;
    both(c < axis.len, first + second == whole)
}

// Some shortest way from p to q takes the link that leaves c, plus or minus.
#[tactic(auto, unfolding(crate::specs::Between::crosses))]
fn crosses(axis: Axis, plus: bool, c: u8, p: u8, q: u8) -> bool
    ensures { result ≡ crosses axis.len axis.ring plus c p q }
{
    let on = between(axis, c, p, q);
    both(on, axis.useful(c, q, plus))
}

// The one way of a deterministic leg from p to q takes it.
#[tactic(auto, unfolding(crate::specs::Between::runs))]
fn runs(axis: Axis, plus: bool, c: u8, p: u8, q: u8) -> bool
    ensures { result ≡ runs rule axis.len axis.ring plus c p q }
{
    let can = crosses(axis, plus, c, p, q);
    both(can, goes_plus(axis, p, q) == plus)
}

// A leg from a to t, and the link that leaves u in a direction.
#[derive(Clone, Copy)]
struct Crossing {
    shape: Shape,
    u: Coords,
    dir: u8,
    a: Coords,
    t: Coords,
}

impl Crossing {
    fn adaptive_along(self, d: Dim) -> bool
        ensures { result ≡ adaptive_along self.shape self.u self.dir self.a self.t d }
    {
        let axis = self.shape.axis(d);
        let c = self.u.coord(d);
        let p = self.a.coord(d);
        let q = self.t.coord(d);
        if dim_of(self.dir) == d {
            return crosses(axis, is_plus(self.dir), c, p, q);
        }
        between(axis, c, p, q)
    }

    #[tactic(auto, unfolding(crate::specs::Crossing::adaptive_crosses))]
    fn adaptive_crosses(self) -> bool
        ensures { result ≡ adaptive_crosses self.shape self.u self.dir self.a self.t }
    {
        let x = self.adaptive_along(Dim::X);
        let y = self.adaptive_along(Dim::Y);
        let z = self.adaptive_along(Dim::Z);
        both(self.dir <= 5, both(x, both(y, z)))
    }

    fn deterministic_along(self, d: Dim) -> bool
        ensures { result ≡ deterministic_along rule self.shape self.u self.dir self.a self.t d }
    {
        let c = self.u.coord(d);
        let p = self.a.coord(d);
        let q = self.t.coord(d);
        let k = dim_of(self.dir);
        if k == d {
            return runs(self.shape.axis(d), is_plus(self.dir), c, p, q);
        }
        pick(d < k, c == q, c == p)
    }

    #[tactic(auto, unfolding(crate::specs::Crossing::deterministic_crosses))]
    fn deterministic_crosses(self) -> bool
        ensures { result ≡ deterministic_crosses rule self.shape self.u self.dir self.a self.t }
    {
        let x = self.deterministic_along(Dim::X);
        let y = self.deterministic_along(Dim::Y);
        let z = self.deterministic_along(Dim::Z);
        both(self.dir <= 5, both(x, both(y, z)))
    }
}

// Some walk of the leg from a to t crosses the link that leaves u in a direction.
#[tactic(auto, unfolding(crate::specs::Crossing::can_cross))]
pub fn can_cross(mode: Mode, shape: Shape, u: Coords, dir: u8, a: Coords, t: Coords) -> bool
    ensures { result ≡ can_cross rule mode shape u dir a t }
{
    let crossing = Crossing {
        shape: shape,
        u: u,
        dir: dir,
        a: a,
        t: t,
    };
    match mode {
        Mode::Adaptive => crossing.adaptive_crosses(),
        Mode::Deterministic => crossing.deterministic_crosses(),
    }
}
