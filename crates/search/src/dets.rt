// Deterministic legs, counted.
ghost use Rattle.std.specs.Prelude.{◌≡◌, ◌≤◌};
ghost use Rattle.rows.specs.Bits.{bit};
ghost use Rattle.search.specs.Number.{det_of};

// A leg that is not clear in the adaptive mode is deterministic.
pub fn det(adaptive: bool) -> u32
    ensures { (result ≡ det_of adaptive) × (result ≤ 1) }
{
    if adaptive { 0 } else { 1 }
}

// The same by the places of a row, which has none past 15.
pub fn det_at(adaptive: u16, x: u8) -> u32
    ensures { (result ≡ det_of (bit adaptive x)) × (result ≤ 1) }
{
    if 16 <= x {
        return det(false);
    }
    det((adaptive >> (x as u16)) % 2 == 1)
}
