// The masks of one end, and of every end.
ghost use Rattle.std.specs.Prelude.{◌≡◌, ℕ, ◌+◌, ◌*◌, ◌/◌, ◌%◌, ◌≤◌, ◌<◌, length, get_or};
ghost use Rattle.shape.specs.Shape.{shape_error};
ghost use Rattle.masks.specs.End.{begins};
ghost use Rattle.masks.specs.Masks.{dim_at, mask_of, gather_at, Ended, Masked};

use crate::end::End;
use crate::mask::Fan;
use machine::leg::Mode;
use shape::axis::Axis;
use shape::{Coords, Dim, Shape};

fn dim_at(n: usize) -> Dim
    ensures { result ≡ dim_at n }
{
    match n {
        0 => Dim::X,
        1 => Dim::Y,
        _ => Dim::Z,
    }
}

// The masks of one place of a dimension: of each column those of 16 places of a loss. All 0 where the dimension has no such place.
fn block(mode: Mode, end: End, axis: Axis, at: u8) -> [u16; 96]
    requires { axis.len ≤ 16 }
    ensures { (j : ℕ) → j < 96 → get_or result j 0 ≡ mask_of mode (begins end) axis.len axis.ring (j / 16) (j % 16) at }
{
    let mut masks = [0u16; 96];
    if axis.len <= at {
        return masks;
    }
    let legs = Fan::new(mode, end, axis, at);
    for j in 0..96u8 {
        masks[j as usize] = legs.mask(j / 16, j % 16);
    }
    masks
}

// Block k of the masks.
fn lay(masks: &mut [u16], k: usize, block: &[u16])
    requires { (96 * k + 96 ≤ length masks.old) × (length block.now ≡ 96) }
    ensures here { (j : ℕ) → j < 96 → get_or masks.new (96 * k + j) 0 ≡ get_or block.now j 0 }
    ensures before { (i : ℕ) → i < 96 * k → get_or masks.new i 0 ≡ get_or masks.old i 0 }
{
    let to = 96 * k;
    // A loop, since the library's copy would make a board supply memmove.
    for j in 0..96 {
        masks[to + j] = block[j];
    }
}

// The masks of one end of the legs in this mode: a block for each dimension.
pub fn ends(mode: Mode, end: End, shape: Shape, at: Coords) -> [u16; 288]
    ensures { Ended mode (begins end) shape at result }
{
    let mut masks = [0u16; 288];
    if shape.check().is_err() {
        return masks;
    }
    for k in 0..3 {
        let d = dim_at(k);
        lay(&mut masks, k, &block(mode, end, shape.axis(d), at.coord(d)));
    }
    masks
}

// The masks of every end, a block for each: once for each plan.
pub fn table(mode: Mode, end: End, shape: Shape) -> [u16; 4608]
    ensures { Masked mode (begins end) shape result }
{
    let mut table = [0u16; 4608];
    if shape.check().is_err() {
        return table;
    }
    for k in 0..48 {
        let axis = shape.axis(dim_at(k / 16));
        lay(&mut table, k, &block(mode, end, axis, (k % 16) as u8));
    }
    table
}

// The masks of one end, from the table of all.
pub fn gather(table: &[u16; 4608], at: Coords) -> [u16; 288]
    ensures { (i : ℕ) → i < 288 → get_or result i 0 ≡ gather_at table.now at i }
{
    let mut masks = [0u16; 288];
    for k in 0..3 {
        let from = 96 * (16 * k + at.coord(dim_at(k)) as usize % 16);
        lay(&mut masks, k, &table[from..from + 96]);
    }
    masks
}
