// What each node can reach as second via.
ghost use Rattle.std.specs.Prelude.{true, ◌≡◌, ℕ, ◌+◌, ◌≤◌, ◌<◌, length, get_or};
ghost use Rattle.shape.specs.Shape.{shape_error};
ghost use Rattle.rows.specs.Bits.{bit};
ghost use Rattle.search.specs.BestVia.{askable};
ghost use Rattle.search.specs.Number.{unclear};
ghost use Rattle.second_via.specs.Nodes.{sum_of, Stored, RowSums, RowSumsAt, PlaneSums, SpaceSums};
ghost use Rattle.second_via.specs.Reach.{reach_in};

use crate::below::below;
use machine::hop::number_at;
use rows::product::Places;
use search::along::parts_along;
use search::best::{UNCLEAR, is_askable};
use search::dets::det_at;
use shape::{Coords, Dim, Shape};
use weights::Ends;

fn sum(note: u32, part: u16, more: u8, adaptive: u16, x: u8) -> u32
    requires { (part ≤ 510) × (x < 16) }
    ensures { result ≡ sum_of note (part + more) (bit adaptive x) }
{
    if UNCLEAR <= note {
        return UNCLEAR;
    }
    let len = part as u32 + more as u32;
    note + 4096 * (4 * len + det_at(adaptive, x))
}

// The places of a word that the dimension has. first: the number of the row's first node. part: what the other dimensions make of the length.
fn row(
    sums: &mut [u32; 4096],
    len: u8,
    word: u16,
    adaptive: u16,
    first: u16,
    notes: &[u32; 4096],
    xs: &[u8; 16],
    part: u16,
)
    requires { (len ≤ 16) × (first + len ≤ 4096) × (part ≤ 510) }
    ensures { Stored sums.old sums.new (RowSums len word adaptive first notes.now xs.now part) }
{
    for x in below(word, len) {
        let i = x as usize;
        let v = first as usize + i;
        sums[v] = sum(notes[v], part, xs[i], adaptive, x);
    }
}

// What the sums are made of: the places of the second via, the nodes' notes, what the places along X make of a length, and both sets to the target.
#[derive(Clone, Copy)]
struct Made<'a> {
    shape: Shape,
    places: Places,
    xs: &'a [u8; 16],
    notes: &'a [u32; 4096],
    to: &'a [u16],
    at: usize,
    ghost sound: { shape_error shape ≡ 0 },
    ghost room: { at + 512 ≤ length to.now },
}

impl Made<'_> {
    // The row at y, z; part, more: what z and y make of the length.
    fn row(&self, sums: &mut [u32; 4096], part: u8, more: u8, y: u8, z: u8)
        requires { (y < self.now.shape.y) × (z < self.now.shape.z) }
        ensures { Stored sums.old sums.new (RowSumsAt self.now.shape self.now.xs.now self.now.places.x self.now.notes.now self.now.to.now self.now.at (part + more) y z) }
    {
        let r = 16 * z as usize + y as usize;
        let a = self.at + r;
        let d = a + 256;
        let first = number_at(self.shape, Coords { x: 0, y: y, z: z });
        let base = part as u16 + more as u16;
        row(
            sums,
            self.shape.x,
            self.places.x & self.to[d],
            self.to[a],
            first,
            self.notes,
            self.xs,
            base,
        );
    }

    fn plane(&self, sums: &mut [u32; 4096], ys: &[u8; 16], part: u8, z: u8)
        requires { z < self.now.shape.z }
        ensures { Stored sums.old sums.new (PlaneSums self.now.shape self.now.xs.now ys.now self.now.places.x self.now.places.y self.now.notes.now self.now.to.now self.now.at part z) }
    {
        for y in below(self.places.y, self.shape.y) {
            self.row(sums, part, ys[y as usize], y, z);
        }
    }

    fn planes(&self, sums: &mut [u32; 4096], ys: &[u8; 16], zs: &[u8; 16])
        ensures { Stored sums.old sums.new (SpaceSums self.now.shape self.now.xs.now ys.now zs.now self.now.places.x self.now.places.y self.now.places.z self.now.notes.now self.now.to.now self.now.at) }
    {
        for z in below(self.places.z, self.shape.z) {
            self.plane(sums, ys, zs[z as usize], z);
        }
    }
}

// Each sum stored, where the question can be asked.
fn asked(
    sums: &mut [u32; 4096],
    ends: Ends,
    places: Places,
    notes: &[u32; 4096],
    to: &[u16],
    at: usize,
)
    requires { askable ends.weights ends.shape ends.a ends.t (length to.now) at ≡ true }
    ensures { length sums.old ≡ 4096 → ((w : ℕ) → w < 4096 → get_or sums.old w 0 ≡ unclear) → (w : ℕ) → w < 4096 → get_or sums.new w 0 ≡ reach_in ends.weights ends.shape ends.a ends.t places.x places.y places.z notes.now to.now at w }
{
    let Ends {
        weights,
        shape,
        a,
        t,
    } = ends;
    let xs = parts_along(weights.x, shape.axis(Dim::X), a.x, t.x);
    let ys = parts_along(weights.y, shape.axis(Dim::Y), a.y, t.y);
    let zs = parts_along(weights.z, shape.axis(Dim::Z), a.z, t.z);
    let made = Made {
        shape,
        places,
        xs: &xs,
        notes,
        to,
        at,
    };
    made.planes(sums, &ys, &zs);
}

// Stores in an array that is `UNCLEAR` throughout what each node can reach; nothing where the question cannot be asked.
pub fn store(
    sums: &mut [u32; 4096],
    ends: Ends,
    places: Places,
    notes: &[u32; 4096],
    to: &[u16],
    at: usize,
)
    ensures { length sums.old ≡ 4096 → ((w : ℕ) → w < 4096 → get_or sums.old w 0 ≡ unclear) → (w : ℕ) → w < 4096 → get_or sums.new w 0 ≡ reach_in ends.weights ends.shape ends.a ends.t places.x places.y places.z notes.now to.now at w }
{
    if is_askable(ends, to.len(), at) {
        asked(sums, ends, places, notes, to, at);
    }
}

// places: those of the second via. From `at` on the run has the nodes with a clear leg to t, adaptive, and behind them those with a clear
// deterministic one.
pub fn reach(ends: Ends, places: Places, notes: &[u32; 4096], to: &[u16], at: usize) -> [u32; 4096]
    ensures { (w : ℕ) → w < 4096 → get_or result w 0 ≡ reach_in ends.weights ends.shape ends.a ends.t places.x places.y places.z notes.now to.now at w }
{
    let mut sums = [UNCLEAR; 4096];
    store(&mut sums, ends, places, notes, to, at);
    sums
}
