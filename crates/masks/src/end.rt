// Which end of a leg is given.

// The node that the leg begins at, or the one that it goes to.
#[derive(Clone, Copy, PartialEq, Eq)]
pub enum End {
    Start,
    Target,
}
