// Legs that travel exactly half a ring from an odd coordinate, which the new rule turns the other way: from the place `at` to the place `to`.
ghost use Rattle.std.specs.Prelude.{◌≡◌};
ghost use Rattle.conversion.specs.Steps.{half_between, odd_half_at, odd_half_of};

use logic::{both, either};
use shape::{Coords, Dim, Shape};

// Whether half a ring of `len` places is between p and q: without a branch, since places cannot be foretold.
fn is_half(len: u8, p: u8, q: u8) -> bool
    ensures { result ≡ half_between len p q }
{
    let whole = len as u16;
    let from = 2 * (p as u16);
    let to = 2 * (q as u16);
    either(from + whole == to, to + whole == from)
}

fn odd_half_along(shape: Shape, at: Coords, to: Coords, d: Dim) -> bool
    ensures { result ≡ odd_half_at shape at to d }
{
    let p = at.coord(d);
    let half = is_half(shape.extent(d), p, to.coord(d));
    both(shape.wrapped(d), both(half, p % 2 == 1))
}

// In some dimension.
pub fn odd_half(shape: Shape, at: Coords, to: Coords) -> bool
    ensures { result ≡ odd_half_of shape at to }
{
    let x = odd_half_along(shape, at, to, Dim::X);
    let y = odd_half_along(shape, at, to, Dim::Y);
    let z = odd_half_along(shape, at, to, Dim::Z);
    either(x, either(y, z))
}
