// The lowest bit set at or after a place.
ghost use Rattle.rows.specs.NextSet.{NextSet};

// 16 where there is none.
pub fn next_set(mask: u16, x: u8) -> u8
    ensures { NextSet mask x result }
{
    if 16 <= x {
        return 16;
    }
    let rest = mask >> (x as u16);
    if rest == 0 {
        return 16;
    }
    x + u16::trailing_zeros(rest) as u8
}
