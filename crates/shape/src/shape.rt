// The shape of a machine, extents and wrap, with checks 5 and 6; and coordinates.
ghost use Rattle.std.specs.Prelude.{◌≡◌};
ghost use Rattle.numbers.specs.Refusals.{answer_number};
ghost use Rattle.shape.specs.Shape.{bad_extent, bad_wrap, bad_extents, bad_wraps, shape_error, extent_of, wrapped_in, axis_of, coord_of};

use crate::axis::Axis;
use logic::either;
use numbers::Refusal;

#[derive(Clone, Copy)]
pub struct Shape {
    pub x: u8,
    pub y: u8,
    pub z: u8,
    pub wrap: u8,
}

#[derive(Clone, Copy)]
pub struct Coords {
    pub x: u8,
    pub y: u8,
    pub z: u8,
}

// In the order X, Y, Z.
#[derive(Clone, Copy, PartialEq, Eq, PartialOrd, Ord)]
pub enum Dim {
    X,
    Y,
    Z,
}

impl Coords {
    pub fn coord(self, d: Dim) -> u8
        ensures { result ≡ coord_of self d }
    {
        match d {
            Dim::X => self.x,
            Dim::Y => self.y,
            Dim::Z => self.z,
        }
    }
}

fn bad_extent(n: u8) -> bool
    ensures { result ≡ bad_extent n }
{
    either(n < 1, 16 < n)
}

fn bad_wrap(n: u8, wrapped: bool) -> bool
    ensures { result ≡ bad_wrap n wrapped }
{
    if wrapped { n < 3 } else { false }
}

impl Shape {
    pub fn extent(self, d: Dim) -> u8
        ensures { result ≡ extent_of self d }
    {
        match d {
            Dim::X => self.x,
            Dim::Y => self.y,
            Dim::Z => self.z,
        }
    }

    pub fn wrapped(self, d: Dim) -> bool
        ensures { result ≡ wrapped_in self d }
    {
        match d {
            Dim::X => self.wrap % 2 == 1,
            Dim::Y => self.wrap / 2 % 2 == 1,
            Dim::Z => self.wrap / 4 % 2 == 1,
        }
    }

    // One dimension by itself.
    pub fn axis(self, d: Dim) -> Axis
        ensures { result ≡ axis_of self d }
    {
        Axis {
            len: self.extent(d),
            ring: self.wrapped(d),
        }
    }

    #[tactic(auto, unfolding(crate::specs::Shape::bad_extents))]
    fn bad_extents(self) -> bool
        ensures { result ≡ bad_extents self }
    {
        let x = bad_extent(self.x);
        let y = bad_extent(self.y);
        let z = bad_extent(self.z);
        either(x, either(y, z))
    }

    #[tactic(auto, unfolding(crate::specs::Shape::bad_wraps))]
    fn bad_wraps(self) -> bool
        ensures { result ≡ bad_wraps self }
    {
        let x = bad_wrap(self.x, self.wrapped(Dim::X));
        let y = bad_wrap(self.y, self.wrapped(Dim::Y));
        let z = bad_wrap(self.z, self.wrapped(Dim::Z));
        either(x, either(y, either(z, 7 < self.wrap)))
    }

    // Check 5, then 6.
    #[tactic(auto, using(theory::proofs::Checks::declining), unfolding(crate::specs::Shape::shape_error))]
    pub fn check(self) -> Result<(), Refusal>
        ensures { answer_number result ≡ shape_error self }
    {
        if self.bad_extents() {
            return Err(Refusal::ExtentOutside);
        }
        if self.bad_wraps() {
            return Err(Refusal::WrongWrap);
        }
        Ok(())
    }
}
