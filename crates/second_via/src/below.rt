// The places of a mask that a dimension has, one by one.
ghost use Rattle.std.specs.Prelude.{◌≡◌, ◌≤◌};
ghost use Rattle.rows.specs.NextSet.{NextSet};

use rows::next::next_set;
use search::listed::Listed;

pub fn below(mask: u16, len: u8) -> Listed
    requires { len ≤ 16 }
    ensures { (result.mask ≡ mask) × (result.len ≡ len) × NextSet mask 0 result.next }
{
    Listed {
        mask,
        len,
        next: next_set(mask, 0),
    }
}
