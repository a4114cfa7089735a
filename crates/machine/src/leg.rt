// A leg of a route: a target and a mode.

// An adaptive leg may take any useful hop at each node, a deterministic leg takes the first dimension where the coordinates differ.
#[derive(Clone, Copy, PartialEq, Eq)]
pub enum Mode {
    Adaptive,
    Deterministic,
}

#[derive(Clone, Copy)]
pub struct Leg {
    pub target: u16,
    pub mode: Mode,
}

// One of a kind for each mode.
#[derive(Clone, Copy)]
pub struct ByMode<T> {
    pub adaptive: T,
    pub deterministic: T,
}
