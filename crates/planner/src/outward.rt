// The nodes from a source outward, by their hops.
ghost use Rattle.std.specs.Prelude.{◌≡◌, ℕ, ◌+◌, ◌*◌, ◌<◌, length, get_or};
ghost use Rattle.shape.specs.declared.shape.Dim.TheVariants.{X, Y};
ghost use Rattle.shape.specs.Shape.{wrapped_in};
ghost use Rattle.search.specs.Outward.{hops_row, row_hops};
ghost use Rattle.planner.specs.Known.{NearRow};

use crate::source::Source;

// `skip`: a set of nodes that are passed over. `xs`, `ys`: at k the places in X and in Y at k hops from the source.
#[derive(Clone, Copy)]
pub struct Outward<'a> {
    pub source: &'a Source<'a>,
    pub skip: &'a [u16; 256],
    pub xs: &'a [u16; 16],
    pub ys: &'a [u16; 16],
    ghost in_x: { (k : ℕ) → k < 16 → get_or xs.now k 0 ≡ hops_row source.now.known.shape.x (wrapped_in source.now.known.shape X) source.now.at.x k },
    ghost in_y: { (k : ℕ) → k < 16 → get_or ys.now k 0 ≡ hops_row source.now.known.shape.y (wrapped_in source.now.known.shape Y) source.now.at.y k },
}

// A row of them, at r hops in Y and Z, with the losses that stand for all on the shortest ways to its nodes.
#[derive(Clone, Copy)]
pub struct Row<'a> {
    pub outward: &'a Outward<'a>,
    pub near: &'a [u16],
    pub y: u8,
    pub z: u8,
    pub r: u8,
    ghost inside: { (y < outward.now.source.now.known.shape.y) × (z < outward.now.source.now.known.shape.z) },
    ghost hops: { r ≡ row_hops outward.now.source.now.known.shape outward.now.source.now.at y z },
    ghost near_row: { NearRow outward.now.source.now.known.plan.now outward.now.source.now.known.work.now outward.now.source.now.node outward.now.source.now.known.losses.now (length outward.now.source.now.known.losses.now) near.now (length near.now) (y + 16 * z) },
}
