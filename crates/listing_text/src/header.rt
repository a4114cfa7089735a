// The first line: source, node count, fault count.
ghost use Rattle.std.specs.Prelude.{◌≡◌, ◌≤◌};
ghost use Rattle.listing_text.specs.Text.{head_line};
ghost use Rattle.listing_text.specs.Steps.{Wrote};

use crate::lent::Lent;

// Writes the line at the front.
pub fn put_header(lent: &mut Lent<'_>, source: u16, nodes: u16, faults: u16)
    requires { lent.old.at ≡ 0 }
    ensures wrote { Wrote lent.old lent.new (head_line source nodes faults) }
    ensures upper_bound { lent.new.at ≤ 18 }
{
    lent.field(Some(source), b' ');
    lent.field(Some(nodes), b' ');
    lent.field(Some(faults), b'\n');
}
