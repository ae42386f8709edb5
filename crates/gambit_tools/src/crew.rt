// The workers who share an enumeration.
ghost use Rattle.words.specs.Words.{IsFrom};

/// The workers who share an enumeration, from 1 to 64.
#[derive(Drop)]
pub(crate) struct Crew<'a, R, G> {
    /// What starts their threads.
    pub(crate) rt: &'a R,
    /// How many there are.
    pub(crate) workers: u32,
    /// What each of them passes before each piece.
    pub(crate) gate: &'a G,
    ghost number: { IsFrom 1 64 workers },
}
