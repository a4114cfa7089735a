// Counts of sheets, boards and entries.
ghost use Rattle.std.specs.Prelude.{◌≡◌};
ghost use Rattle.program.specs.Count.{plus};

// Stays at the largest number where the sum is past it.
pub fn sum(a: u32, b: u32) -> u32
    ensures { result ≡ plus a b }
{
    a.saturating_add(b)
}
