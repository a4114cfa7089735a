// A product of three sets of places, as a set of nodes, and taken away from one.
ghost use Rattle.std.specs.Prelude.{◌≡◌, List, ℕ, ◌+◌, ◌≤◌, ◌<◌, get_or};
ghost use Rattle.rows.specs.Bits.{bit};
ghost use Rattle.rows.specs.Product.{Less, Are, product};
ghost use Rattle.rows.specs.Planes.{kept_row, plane_to, plane_if, Producing};

use logic::pick;

// In each dimension a set of places, as the bits of a number.
#[derive(Clone, Copy)]
pub struct Places {
    pub x: u16,
    pub y: u16,
    pub z: u16,
}

fn bit(v: u16, i: u16) -> bool
    requires { i < 16 }
    ensures { result ≡ bit v i }
{
    (v >> i) % 2 == 1
}

// What is kept of the rows of a plane: all but x where y has the row's bit.
fn plane(x: u16, y: u16) -> [u16; 16]
    ensures { (j : ℕ) → j < 16 → get_or result j 0 ≡ kept_row x y j }
{
    let kept = 65535 - x;
    let mut rows = [0u16; 16];
    for j in 0..16u16 {
        rows[j as usize] = pick(bit(y, j), kept, 65535);
    }
    rows
}

// Of the rows of plane k, what `plane` keeps.
fn keep(rows: &mut [u16; 256], plane: &[u16; 16], k: usize)
    requires { k < 16 }
    ensures { Less (plane_to plane.now k 16) rows.old rows.new }
{
    for j in 0..16 {
        rows[16 * k + j] &= plane[j];
    }
}

fn keep_if(b: bool, rows: &mut [u16; 256], plane: &[u16; 16], k: usize)
    requires { k < 16 }
    ensures { Less (plane_if b plane.now k) rows.old rows.new }
{
    if b {
        keep(rows, plane, k);
    }
}

// The eight planes from `first` on, where z has one of them.
fn less_half(rows: &mut [u16; 256], plane: &[u16; 16], z: u16, first: u16)
    requires { first ≤ 8 }
    ensures { (bx by : ℕ) (old : List ℕ) → Producing bx by z plane.now old rows.old first → Producing bx by z plane.now old rows.new (first + 8) }
{
    if (z >> first) % 256 == 0 {
        return;
    }
    for k in 0..8u16 {
        keep_if(bit(z, first + k), rows, plane, (first + k) as usize);
    }
}

fn less_planes(rows: &mut [u16; 256], places: Places)
    ensures { Less (product places.x places.y places.z) rows.old rows.new }
{
    let kept = plane(places.x, places.y);
    less_half(rows, &kept, places.z, 0);
    less_half(rows, &kept, places.z, 8);
}

// The rows less the nodes of a product.
pub fn less(rows: &mut [u16; 256], places: Places)
    ensures { Less (product places.x places.y places.z) rows.old rows.new }
{
    if places.x != 0 && places.y != 0 && places.z != 0 {
        less_planes(rows, places);
    }
}

// The rows of a product.
pub fn product(places: Places) -> [u16; 256]
    ensures { Are (product places.x places.y places.z) result }
{
    let mut rows = [places.x; 256];
    let beside_y = Places {
        x: 65535,
        y: 65535 - places.y,
        z: 65535,
    };
    less(&mut rows, beside_y);
    let beside_z = Places {
        x: 65535,
        y: 65535,
        z: 65535 - places.z,
    };
    less(&mut rows, beside_z);
    rows
}
