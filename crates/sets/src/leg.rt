// Whether one leg is clear: each loss is tried, dimension by dimension.
ghost use Rattle.std.specs.Prelude.{◌≡◌, not, length};
ghost use Rattle.std.specs.List.{list_any};
ghost use Rattle.machine.specs.Hop.{rule};
ghost use Rattle.losses.specs.Loss.{loss_at, loss_meets, on_leg};
ghost use Rattle.sets.specs.Part.{dim_number, cell_in, cells_in, dead_cells};

use crate::cells::Run;
use crate::part::{Kind, place};
use machine::leg::Mode;
use shape::{Coords, Dim, Shape};

// A leg from a to t.
#[derive(Drop)]
struct Leg {
    mode: Mode,
    shape: Shape,
    a: Coords,
    t: Coords,
}

impl Leg {
    // What of the loss w is of this kind, in one dimension.
    fn meets_along(&self, d: Dim, kind: Kind, w: u16) -> bool
        ensures { result ≡ cell_in self.now.mode self.now.shape kind.number (dim_number d) (loss_at w) self.now.a self.now.t }
    {
        let run = Run {
            mode: self.mode,
            axis: self.shape.axis(d),
            a: self.a.coord(d),
            t: self.t.coord(d),
        };
        run.cell(kind.column(d), place(w, d) as u8)
    }

    // Along X last for a kind along X, and else first, as the quickest to try.
    fn part_meets(&self, kind: Kind, w: u16) -> bool
        ensures { result ≡ cells_in self.now.mode self.now.shape kind.number (loss_at w) self.now.a self.now.t }
    {
        if kind.dim() == 0 {
            self.meets_along(Dim::Y, kind, w)
                && self.meets_along(Dim::Z, kind, w)
                && self.meets_along(Dim::X, kind, w)
        } else {
            self.meets_along(Dim::X, kind, w)
                && self.meets_along(Dim::Y, kind, w)
                && self.meets_along(Dim::Z, kind, w)
        }
    }

    fn dead_meets(&self, w: u16) -> bool
        ensures { result ≡ dead_cells self.now.mode self.now.shape (loss_at w) self.now.a self.now.t }
    {
        self.part_meets(Kind { number: 9 }, w)
            || self.part_meets(Kind { number: 10 }, w)
            || self.part_meets(Kind { number: 11 }, w)
    }

    // Whether the loss w lies on it.
    fn meets(&self, w: u16) -> bool
        ensures { result ≡ loss_meets rule self.now.mode self.now.shape w self.now.a self.now.t }
    {
        let number = w / 4096;
        match number {
            0..9 => self.part_meets(Kind { number }, w),
            9 => self.dead_meets(w),
            _ => false,
        }
    }

    fn meets_any(&self, losses: &[u16]) -> bool
        ensures { result ≡ list_any (λ w. loss_meets rule self.now.mode self.now.shape w self.now.a self.now.t) losses.now }
    {
        losses.iter().any(|w| self.meets(*w))
    }
}

// Whether none of the losses lies on the leg from a to t.
pub fn leg_clear(mode: Mode, shape: Shape, losses: &[u16], a: Coords, t: Coords) -> bool
    ensures { result ≡ not (on_leg rule mode shape losses.now (length losses.now) a t) }
{
    let leg = Leg { mode, shape, a, t };
    !leg.meets_any(losses)
}
