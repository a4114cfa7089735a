// The bytes of a plan's sheet, of at most 256 faults.
ghost use Rattle.std.specs.Prelude.{◌≡◌, ◌+◌, ◌*◌, ◌<◌, ◌≤◌, take};
ghost use Rattle.plan.specs.Layout.{layout_of};
ghost use Rattle.plan_value.specs.Steps.{put_fault};
ghost use Rattle.plan_value.specs.Writing.{head_bytes, sheet_of};

use crate::reading::Plan;
use plan::Fault;
use plan::layout::{FAULT_SIZE, head_size, size_after, weight_bytes};
use sheet::{lower, upper};

fn head(plan: Plan) -> [u8; 780]
    requires { plan.count ≤ 256 }
    ensures { take (layout_of plan.version).head_size result ≡ head_bytes plan }
{
    let version = plan.version;
    let shape = plan.shape;
    let weights = plan.weights;
    let count = plan.count;
    let after = size_after(version, count) as u16;
    let mut bytes = [0u8; 780];
    bytes[0] = version;
    bytes[1] = upper(after);
    bytes[2] = lower(after);
    bytes[3] = shape.x;
    bytes[4] = shape.y;
    bytes[5] = shape.z;
    bytes[6] = shape.wrap;
    if weight_bytes(version) == 0 {
        bytes[7] = upper(count);
        bytes[8] = lower(count);
        return bytes;
    }
    bytes[7] = weights.x;
    bytes[8] = weights.y;
    bytes[9] = weights.z;
    bytes[10] = upper(count);
    bytes[11] = lower(count);
    bytes
}

// Behind a head of so many bytes.
fn put_fault(head: usize, bytes: &mut [u8; 780], i: usize, f: Fault)
    requires { (head ≤ 12) × (i < 256) }
    ensures { bytes.new ≡ put_fault head bytes.old i f }
{
    let at = head + FAULT_SIZE * i;
    bytes[at] = upper(f.node);
    bytes[at + 1] = lower(f.node);
    bytes[at + 2] = f.kind;
}

pub fn encoded(plan: Plan) -> [u8; 780]
    requires { plan.count ≤ 256 }
    ensures { take ((layout_of plan.version).head_size + 3 * plan.count) result ≡ sheet_of plan }
{
    let size = head_size(plan.version);
    let mut bytes = head(plan);
    for (i, f) in plan.faults[..plan.count as usize].iter().enumerate() {
        put_fault(size, &mut bytes, i, *f);
    }
    bytes
}
