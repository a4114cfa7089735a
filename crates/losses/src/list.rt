// A list of losses, each a number: the coordinates of a node, four bits each, and a kind.
ghost use Rattle.std.specs.Prelude.{◌≡◌};

use std::marker::Model;

// In fixed memory: the first `count` of the words, and 0 behind them, so that the list gives them back. Words, and no struct of places and a kind: the losses'
// laws (`loss_at`, `loss_kind`) are of numbers.
#[derive(Clone, Copy)]
pub struct Losses {
    pub(crate) words: [u16; 256],
    pub(crate) count: u16,
}

impl Model for Losses {
    ghost use Rattle.std.specs.Prelude.{List, ℕ, take, length};
    ghost use mathlib.Core.Path.{sym, ap, ◌∙◌};
    ghost use Rattle.losses.specs.Lists.{padded, InWords};

    ghost Value = { List ℕ };

    ghost view = { λ l. take l.count l.words };

    ghost invariant = { λ l. InWords l.words l.count };

    ghost inverse = { λ v. record { words = padded v; count = length v } };

    ghost inverse_ok = { λ l h. ap (λ w. record { words = w; count = length (take l.count l.words) }) (sym h.filled) ∙ ap (λ n. record { words = l.words; count = n }) h.counted };
}

impl Losses {
    pub fn as_slice(&self) -> &[u16]
        ensures { result.now ≡ self.now }
    {
        &self.words[..self.count as usize]
    }
}
