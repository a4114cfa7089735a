// The notes of the nodes from a source, and the two vias to each: those between the source and a node come before it.
ghost use Rattle.std.specs.Prelude.{◌≡◌, false, ◌+◌, ◌-◌, ◌*◌, ◌≤◌, ◌<◌, length, get_or, replicate};
ghost use Rattle.machine.specs.declared.leg.Mode.TheVariants.{Adaptive};
ghost use Rattle.plan.specs.Layout.{faults_of};
ghost use Rattle.dead.specs.Dead.{dead_node};
ghost use Rattle.rows.specs.Rows.{in_rows};
ghost use Rattle.search.specs.Number.{unclear};
ghost use Rattle.search.specs.Outward.{rank_at, row_hops, rank_of};
ghost use Rattle.notes.specs.Known.{is_clear, ToBetween, NearLosses, NoteTo};
ghost use Rattle.first_clear.specs.Known.{NotedBetween, TwoTo};
ghost use Rattle.planner.specs.Known.{Work, NotesMade, TwosMade};
ghost use Rattle.planner.specs.Ranked.{Noting, LevelWord, PlaneWord, due_in};

use crate::outside::others;
use crate::outward::{Outward, Row};
use crate::sifted::sift_row;
use crate::source::Source;
use crate::target::Target;
use first_clear::near::two_vias;
use machine::hop::number_at;
use masks::span::box_of;
use notes::note::{note_by_losses, note_by_sets};
use rows::member::has;
use search::best::UNCLEAR;
use search::listed::Listed;
use search::outward::rows_by_hops;
use shape::{Coords, Dim};

// Of one node: by the sets to all nodes where the run has them, else by the losses. `near`: losses that stand for all on the shortest ways. A node to which the direct
// adaptive leg is clear needs none, and a dead one has none.
fn note_to(target: &Target, near: &[u16], run: &mut [u16; 1024]) -> u32
    requires { let k = target.now.source.now.known in length k.work.now ≡ 0 → NearLosses k.plan.now target.now.source.now.node target.now.node k.losses.now (length k.losses.now) near.now (length near.now) }
    ensures note_to { let k = target.now.source.now.known in Work k.plan.now k.work.now → NoteTo k.plan.now target.now.source.now.node target.now.node result }
    ensures to_between { let k = target.now.source.now.known in let S = target.now.source.now.node in let D = target.now.node in length k.work.now ≡ 0 → is_clear k.plan.now Adaptive S D ≡ false → dead_node (faults_of k.plan.now) D ≡ false → ToBetween k.plan.now Adaptive S D run.new 0 }
{
    let source = target.source;
    let known = source.known;
    let clear = source.clear;
    let direct = clear.adaptive;
    if has(direct, 0, target.at) {
        return UNCLEAR;
    }
    if known.dead[target.node as usize] != 0 {
        return UNCLEAR;
    }
    let other = clear.deterministic;
    let straight = has(other, 0, target.at);
    let ends = target.ends();
    if known.work.is_empty() {
        return note_by_losses(
            ends,
            known.losses,
            near,
            known.targets,
            clear,
            straight,
            run,
        );
    }
    note_by_sets(ends, known.work, target.node, clear, straight)
}

// The two vias of one node, by the same; none where its note is a via with two adaptive legs.
fn two_to(target: &Target, run: &[u16; 1024], notes: &[u32; 4096]) -> u32
    requires { let k = target.now.source.now.known in let S = target.now.source.now.node in let D = target.now.node in length k.work.now ≡ 0 → is_clear k.plan.now Adaptive S D ≡ false → dead_node (faults_of k.plan.now) D ≡ false → ToBetween k.plan.now Adaptive S D run.now 0 }
    ensures { let k = target.now.source.now.known in let S = target.now.source.now.node in let D = target.now.node in Work k.plan.now k.work.now → NotedBetween k.plan.now S D notes.now → is_clear k.plan.now Adaptive S D ≡ false → 4096 ≤ get_or notes.now D 0 → TwoTo k.plan.now S D result }
{
    let source = target.source;
    let known = source.known;
    let direct = source.clear.adaptive;
    if has(direct, 0, target.at) {
        return UNCLEAR;
    }
    let i = target.node as usize;
    if known.dead[i] != 0 {
        return UNCLEAR;
    }
    if notes[i] < 4096 {
        return UNCLEAR;
    }
    let between = box_of(known.shape, source.at, target.at);
    if known.work.is_empty() {
        return two_vias(known.shape, between, run, 0, notes);
    }
    two_vias(known.shape, between, known.work, 512 * i, notes)
}

// One node of a row: its note, then its two vias.
fn note_node(
    row: &Row,
    x: u8,
    run: &mut [u16; 1024],
    notes: &mut [u32; 4096],
    twos: &mut [u32; 4096],
)
    requires inside { (x < row.now.outward.now.source.now.known.shape.x) × (in_rows row.now.outward.now.skip.now 0 (record { x = x; y = row.now.y; z = row.now.z }) ≡ false) }
    requires noting { let o = row.now.outward.now in let s = o.source.now in Noting s.known.plan.now s.known.work.now s.node o.skip.now notes.old twos.old (rank_of s.known.shape s.at (record { x = x; y = row.now.y; z = row.now.z })) }
    ensures { let o = row.now.outward.now in let s = o.source.now in Noting s.known.plan.now s.known.work.now s.node o.skip.now notes.new twos.new (rank_of s.known.shape s.at (record { x = x; y = row.now.y; z = row.now.z }) + 1) }
{
    let source = row.outward.source;
    let at = Coords {
        x,
        y: row.y,
        z: row.z,
    };
    let node = number_at(source.known.shape, at);
    let target = Target { source, node, at };
    let i = node as usize;
    notes[i] = note_to(&target, row.near, run);
    twos[i] = two_to(&target, run, notes);
}

// The nodes of a row that a word has, all at k hops in X.
fn note_word(
    row: &Row,
    word: u16,
    k: u8,
    run: &mut [u16; 1024],
    notes: &mut [u32; 4096],
    twos: &mut [u32; 4096],
)
    requires level { k < 16 }
    requires level_word { let o = row.now.outward.now in LevelWord o.source.now.known.shape o.source.now.at o.skip.now row.now.y row.now.z k word }
    requires noting { let o = row.now.outward.now in let s = o.source.now in Noting s.known.plan.now s.known.work.now s.node o.skip.now notes.old twos.old (rank_at row.now.r row.now.y row.now.z k 0) }
    ensures { let o = row.now.outward.now in let s = o.source.now in Noting s.known.plan.now s.known.work.now s.node o.skip.now notes.new twos.new (rank_at row.now.r row.now.y row.now.z (k + 1) 0) }
{
    for x in Listed::new(word) {
        note_node(row, x, run, notes, twos);
    }
}

// The nodes of a row at r hops, by their hops in X.
fn note_row(
    outward: &Outward,
    y: u8,
    z: u8,
    r: u8,
    near: &mut [u16; 256],
    run: &mut [u16; 1024],
    notes: &mut [u32; 4096],
    twos: &mut [u32; 4096],
)
    requires near_len { length near.old ≡ 256 }
    requires y_lt_y { let s = outward.now.source.now in (y < s.known.shape.y) × (z < s.known.shape.z) × (r ≡ row_hops s.known.shape s.at y z) }
    requires noting { let s = outward.now.source.now in Noting s.known.plan.now s.known.work.now s.node outward.now.skip.now notes.old twos.old (rank_at r y z 0 0) }
    ensures noting_2 { let s = outward.now.source.now in Noting s.known.plan.now s.known.work.now s.node outward.now.skip.now notes.new twos.new (rank_at r y z 16 0) }
    ensures near_len_2 { length near.new ≡ 256 }
{
    let left = others(outward.skip[16 * z as usize + y as usize]);
    if left == 0 {
        return;
    }
    let count = sift_row(outward.source, Coords { x: 0, y, z }, near);
    let row = Row {
        outward,
        near: &near[..count],
        y,
        z,
        r,
    };
    for k in 0..16u8 {
        let word = outward.xs[k as usize] & left;
        note_word(&row, word, k, run, notes, twos);
    }
}

// The places in Y of the rows at r hops, of a plane at `far` hops. `rows`: the places at each number of hops.
fn due_rows(rows: &[u16; 16], far: u8, r: u8) -> u16
    ensures { result ≡ due_in rows.now far r }
{
    if r < far {
        return 0;
    }
    if 16 <= r - far {
        return 0;
    }
    let i = (r - far) as usize;
    rows[i]
}

// The rows of a plane that a word has, all at r hops in Y and Z.
fn note_plane(
    outward: &Outward,
    word: u16,
    z: u8,
    r: u8,
    near: &mut [u16; 256],
    run: &mut [u16; 1024],
    notes: &mut [u32; 4096],
    twos: &mut [u32; 4096],
)
    requires near_len { length near.old ≡ 256 }
    requires z_lt_z { let s = outward.now.source.now in (z < s.known.shape.z) × PlaneWord s.known.shape s.at z r word }
    requires noting { let s = outward.now.source.now in Noting s.known.plan.now s.known.work.now s.node outward.now.skip.now notes.old twos.old (65536 * r + 4096 * z) }
    ensures noting_2 { let s = outward.now.source.now in Noting s.known.plan.now s.known.work.now s.node outward.now.skip.now notes.new twos.new (65536 * r + 4096 * (z + 1)) }
    ensures near_len_2 { length near.new ≡ 256 }
{
    for y in Listed::new(word) {
        note_row(outward, y, z, r, near, run, notes, twos);
    }
}

// The rows at r hops in Y and Z.
fn note_rows(
    outward: &Outward,
    r: u8,
    near: &mut [u16; 256],
    run: &mut [u16; 1024],
    notes: &mut [u32; 4096],
    twos: &mut [u32; 4096],
)
    requires near_len { length near.old ≡ 256 }
    requires noting { let s = outward.now.source.now in Noting s.known.plan.now s.known.work.now s.node outward.now.skip.now notes.old twos.old (65536 * r) }
    ensures noting_2 { let s = outward.now.source.now in Noting s.known.plan.now s.known.work.now s.node outward.now.skip.now notes.new twos.new (65536 * (r + 1)) }
    ensures near_len_2 { length near.new ≡ 256 }
{
    let shape = outward.source.known.shape;
    let from = outward.source.at.z;
    for z in 0..shape.z {
        let far = shape.axis(Dim::Z).hops(from, z);
        let word = due_rows(outward.ys, far, r);
        note_plane(outward, word, z, r, near, run, notes, twos);
    }
}

// Of every node that is not in the set `skip`. The notes are lent, so that they are not laid out on the stack once more.
pub fn notes_from(
    source: &Source,
    skip: &[u16; 256],
    notes: &mut [u32; 4096],
    twos: &mut [u32; 4096],
)
    requires notes_fresh { notes.old ≡ replicate 4096 unclear }
    requires twos_len { length twos.old ≡ 4096 }
    ensures { let k = source.now.known in Work k.plan.now k.work.now → NotesMade k.plan.now source.now.node skip.now notes.new × TwosMade k.plan.now source.now.node skip.now notes.new twos.new }
{
    let mut run = [0u16; 1024];
    let mut near = [0u16; 256];
    let shape = source.known.shape;
    let xs = rows_by_hops(shape.axis(Dim::X), source.at.x);
    let ys = rows_by_hops(shape.axis(Dim::Y), source.at.y);
    let outward = Outward {
        source,
        skip,
        xs: &xs,
        ys: &ys,
    };
    for r in 0..31u8 {
        note_rows(&outward, r, &mut near, &mut run, notes, twos);
    }
}
