// Where the parts of a plan sheet stand, by its version. These calls read any bytes, also of a sheet that a check declines; a byte past the end reads as 0.
ghost use Rattle.std.specs.Prelude.{◌≡◌, ◌≤◌};
ghost use Rattle.plan.specs.Layout.{layout_of, shape_of, weights_of, fault_count, size_after, fault_at};

use logic::either;
use shape::Shape;
use sheet::head::version_in;
use sheet::{byte_at, word_at};
use weights::Weights;

// In the order in which a plan lists them: by node, then kind. The kind is a byte as lent: it is read before it is judged, and `plan_value::write` answers any.
#[derive(Clone, Copy, PartialEq, Eq, PartialOrd, Ord)]
pub struct Fault {
    pub node: u16,
    pub kind: u8,
}

// The bytes of a version 1 head; the faults stand behind the head.
const HEAD_SIZE: usize = 9;

// The weight bytes of version 2.
const WEIGHTS: usize = 3;

pub const LAST_KIND: u8 = 3;

// A fault's bytes, and how many faults a plan has at most.
pub const FAULT_SIZE: usize = 3;

pub const MOST_FAULTS: u16 = 256;

// Whether there is such a version.
pub fn is_known(version: u8) -> bool
    ensures { result ≡ (layout_of version).known }
{
    either(version == 1, version == 2)
}

// How many weight bytes stand behind the wrap byte.
pub fn weight_bytes(version: u8) -> usize
    ensures { (result ≡ (layout_of version).weights) × (result ≤ 3) }
{
    if version == 2 { WEIGHTS } else { 0 }
}

// The bytes before the faults.
pub fn head_size(version: u8) -> usize
    ensures { (result ≡ (layout_of version).head_size) × ((9 ≤ result) × (result ≤ 12)) }
{
    HEAD_SIZE + weight_bytes(version)
}

pub fn shape_in(sheet: &[u8]) -> Shape
    ensures { result ≡ shape_of sheet.now }
{
    Shape {
        x: byte_at(sheet, 3),
        y: byte_at(sheet, 4),
        z: byte_at(sheet, 5),
        wrap: byte_at(sheet, 6),
    }
}

pub fn weights_in(sheet: &[u8]) -> Weights
    ensures { result ≡ weights_of sheet.now }
{
    if weight_bytes(version_in(sheet)) == 0 {
        return Weights { x: 1, y: 1, z: 1 };
    }
    Weights {
        x: byte_at(sheet, 7),
        y: byte_at(sheet, 8),
        z: byte_at(sheet, 9),
    }
}

pub fn count_in(sheet: &[u8]) -> u16
    ensures { result ≡ fault_count sheet.now }
{
    word_at(sheet, head_size(version_in(sheet)) - 2) as u16
}

// The length of what follows the length field, with this many faults.
pub fn size_after(version: u8, count: u16) -> usize
    ensures { result ≡ size_after (layout_of version) count }
{
    head_size(version) - 3 + FAULT_SIZE * (count as usize)
}

// Fault number i, from 0.
pub fn fault_in(sheet: &[u8], i: u16) -> Fault
    ensures { result ≡ fault_at sheet.now i }
{
    let at = head_size(version_in(sheet)) + FAULT_SIZE * (i as usize);
    Fault {
        node: word_at(sheet, at) as u16,
        kind: byte_at(sheet, at + 2),
    }
}
