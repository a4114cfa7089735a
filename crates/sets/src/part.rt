// A loss as products of masks: the column of masks in each dimension.
ghost use Rattle.std.specs.Prelude.{◌≡◌, ◌<◌};
ghost use Rattle.shape.specs.Shape.{coord_of};
ghost use Rattle.losses.specs.Loss.{loss_at};
ghost use Rattle.sets.specs.Part.{kind_dim, columns, column, mask_in, dim_number};

use shape::Dim;

// What is lost along one dimension: 0 to 8 as of a loss; 9, 10, 11 a dead node's links along X, Y, Z. A number, since a loss is one: its word has it above the
// place, and it finds its columns by it.
#[derive(Clone, Copy)]
pub struct Kind {
    pub number: u16,
    pub ghost few: { number < 12 },
}

impl Kind {
    // The number of its dimension.
    pub fn dim(self) -> u16
        ensures { result ≡ kind_dim self.number }
    {
        match self.number {
            0..6 => self.number / 2,
            6..9 => self.number - 6,
            _ => self.number - 9,
        }
    }

    // The column in a dimension.
    pub fn column(self, d: Dim) -> u16
        ensures value { result ≡ column self.number (dim_number d) }
        ensures upper_bound { result < 6 }
    {
        ((columns(d) >> (4 * self.number as u64)) % 16) as u16
    }
}

fn dim_number(d: Dim) -> u16
    ensures value { result ≡ dim_number d }
    ensures upper_bound { result < 3 }
{
    match d {
        Dim::X => 0,
        Dim::Y => 1,
        Dim::Z => 2,
    }
}

// The place of a loss in a dimension.
pub fn place(w: u16, d: Dim) -> u16
    ensures value { result ≡ coord_of (loss_at w) d }
    ensures upper_bound { result < 16 }
{
    match d {
        Dim::X => w % 16,
        Dim::Y => w / 16 % 16,
        Dim::Z => w / 256 % 16,
    }
}

// The columns in a dimension, four bits a kind.
fn columns(d: Dim) -> u64
    ensures { result ≡ columns (dim_number d) }
{
    match d {
        Dim::X => 0x5004000021,
        Dim::Y => 0x53043002133,
        Dim::Z => 0x533433213333,
    }
}

// Of the loss w, or of links of it that are of this kind.
pub fn mask_in(ends: &[u16; 288], kind: Kind, d: Dim, w: u16) -> u16
    ensures { result ≡ mask_in ends.now kind.number (dim_number d) (coord_of (loss_at w) d) }
{
    let i = 96 * dim_number(d) + 16 * kind.column(d) + place(w, d);
    ends[i as usize]
}
