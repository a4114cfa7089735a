// Why a program does not do its job.
use numbers::Refusal;

#[derive(Clone, Copy)]
pub enum Failure<'a> {
    CannotRead(&'a [u8]),
    CannotWrite(&'a [u8]),
    Refused(Refusal),
}

impl From<Refusal> for Failure<'_> {
    fn from(refusal: Refusal) -> Self {
        Failure::Refused(refusal)
    }
}
