// The losses that can meet a leg between one end and a node at given places in Y and Z.
ghost use Rattle.std.specs.Prelude.{◌≡◌, length, min};
ghost use Rattle.sets.specs.Sift.{part_reaches, dead_reaches, reaches, Sifted};

use crate::part::{Kind, mask_in};
use logic::{both, either};
use shape::Dim;

// Places in Y and in Z, and the masks of one end of the legs.
#[derive(Drop)]
struct Reach<'a> {
    by: u16,
    bz: u16,
    ends: &'a [u16; 288],
}

impl Reach<'_> {
    fn part_reaches(&self, kind: Kind, w: u16) -> bool
        ensures { result ≡ part_reaches self.now.by self.now.bz self.now.ends.now kind.number w }
    {
        let y = mask_in(self.ends, kind, Dim::Y, w) & self.by;
        let z = mask_in(self.ends, kind, Dim::Z, w) & self.bz;
        both(y != 0, z != 0)
    }

    fn dead_reaches(&self, w: u16) -> bool
        ensures { result ≡ dead_reaches self.now.by self.now.bz self.now.ends.now w }
    {
        let x = self.part_reaches(Kind { number: 9 }, w);
        let y = self.part_reaches(Kind { number: 10 }, w);
        let z = self.part_reaches(Kind { number: 11 }, w);
        either(x, either(y, z))
    }

    fn reaches(&self, w: u16) -> bool
        ensures { result ≡ reaches self.now.by self.now.bz self.now.ends.now w }
    {
        let number = w / 4096;
        match number {
            0..9 => self.part_reaches(Kind { number }, w),
            9 => self.dead_reaches(w),
            _ => false,
        }
    }
}

// `ends`: the masks of one end. Of the losses those that reach places of by in Y and of bz in Z, at the front of `kept`; their number. `kept` has room for
// 256, so of more losses the first 256 are looked at.
pub fn sift(by: u16, bz: u16, ends: &[u16; 288], losses: &[u16], kept: &mut [u16; 256]) -> usize
    ensures { Sifted by bz ends.now losses.now (min (length losses.now) 256) kept.old kept.new result }
{
    let reach = Reach { by, bz, ends };
    let n = losses.len().min(256);
    let mut found = 0;
    for w in &losses[..n] {
        kept[found] = *w;
        found += usize::from(reach.reaches(*w));
    }
    found
}
