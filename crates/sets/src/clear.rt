// The nodes of a product with a clear leg from one end, or to it, as rows of bits.
ghost use Rattle.std.specs.Prelude.{◌&&◌, length};
ghost use Rattle.rows.specs.Product.{node_at, Less, Are, product};
ghost use Rattle.sets.specs.Part.{part_in, dead_in, loss_in};
ghost use Rattle.sets.specs.Clear.{clear_in};

use crate::part::{Kind, mask_in};
use rows::product::{Places, less, product};
use shape::Dim;

// A product of places, and the masks of one end of the legs.
#[derive(Drop)]
struct Within<'a> {
    places: Places,
    ends: &'a [u16; 288],
}

impl Within<'_> {
    // What is lost of this kind, within the product.
    fn less_part(&self, rows: &mut [u16; 256], kind: Kind, w: u16)
        ensures { Less (λ r x. part_in self.now.ends.now kind.number w (node_at r x) && product self.now.places.x self.now.places.y self.now.places.z r x) rows.old rows.new }
    {
        let x = mask_in(self.ends, kind, Dim::X, w) & self.places.x;
        if x == 0 {
            return;
        }
        let y = mask_in(self.ends, kind, Dim::Y, w) & self.places.y;
        let z = mask_in(self.ends, kind, Dim::Z, w) & self.places.z;
        less(rows, Places { x, y, z });
    }

    fn less_dead(&self, rows: &mut [u16; 256], w: u16)
        ensures { Less (λ r x. dead_in self.now.ends.now w (node_at r x) && product self.now.places.x self.now.places.y self.now.places.z r x) rows.old rows.new }
    {
        self.less_part(rows, Kind { number: 9 }, w);
        self.less_part(rows, Kind { number: 10 }, w);
        self.less_part(rows, Kind { number: 11 }, w);
    }

    fn less_loss(&self, rows: &mut [u16; 256], w: u16)
        ensures { Less (λ r x. loss_in self.now.ends.now w (node_at r x) && product self.now.places.x self.now.places.y self.now.places.z r x) rows.old rows.new }
    {
        let number = w / 4096;
        match number {
            0..9 => self.less_part(rows, Kind { number }, w),
            9 => self.less_dead(rows, w),
            _ => {}
        }
    }
}

// `ends`: the masks of one end. The nodes of the product of the places whose leg to that end, or from it, meets none of the losses. Of more than 256 the
// first 256 are looked at, as `clear_in` says.
pub fn clear_in(places: Places, ends: &[u16; 288], losses: &[u16]) -> [u16; 256]
    ensures { Are (clear_in places.x places.y places.z ends.now losses.now (length losses.now)) result }
{
    let within = Within { places, ends };
    let mut rows = product(places);
    let n = losses.len().min(256);
    for w in &losses[..n] {
        within.less_loss(&mut rows, *w);
    }
    rows
}
