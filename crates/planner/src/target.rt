// A node of the plan, as a destination of the source.
ghost use Rattle.std.specs.Prelude.{◌≡◌};
ghost use Rattle.notes.specs.Known.{IsAt};

use crate::source::Source;
use shape::Coords;
use weights::Ends;

#[derive(Clone, Copy)]
pub struct Target<'a> {
    pub source: &'a Source<'a>,
    pub node: u16,
    pub at: Coords,
    ghost node_at: { IsAt source.now.known.plan.now node at },
}

impl Target<'_> {
    pub fn ends(&self) -> Ends
        ensures { result ≡ record { weights = self.now.source.now.known.weights; shape = self.now.source.now.known.shape; a = self.now.source.now.at; t = self.now.at } }
    {
        Ends {
            weights: self.source.known.weights,
            shape: self.source.known.shape,
            a: self.source.at,
            t: self.at,
        }
    }
}
