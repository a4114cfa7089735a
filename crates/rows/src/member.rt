// Whether a node is in a set.
ghost use Rattle.std.specs.Prelude.{◌≡◌, ◌+◌, ◌≤◌, ◌<◌, length};
ghost use Rattle.rows.specs.Rows.{in_rows};

use shape::Coords;

// The rows of the set begin at place `at`. False where the run has no such row, or a set no such place.
// `rows` and `at`, and not a slice from there on: `in_rows` and `in_set` name the place.
pub fn has(rows: &[u16], at: usize, c: Coords) -> bool
    ensures { at + 256 ≤ length rows.now → c.x < 16 → c.y < 16 → c.z < 16 → result ≡ in_rows rows.now at c }
{
    if 16 <= c.x {
        return false;
    }
    let row = c.y as usize + 16 * c.z as usize;
    if rows.len() <= row {
        return false;
    }
    if rows.len() - row <= at {
        return false;
    }
    (rows[at + row] >> (c.x as u16)) % 2 == 1
}
