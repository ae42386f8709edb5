// The masks among which partners are looked for.
ghost use Rattle.std.specs.Prelude.{◌≡◌, length};

/// The masks of a list, word by word, and the bits that a mask and its partner have together.
#[derive(Clone, Copy)]
pub(crate) struct Candidates<'a> {
    /// All bits.
    pub(crate) all: [u64; 2],
    /// The low words.
    pub(crate) low: &'a [u64],
    /// The high words.
    pub(crate) high: &'a [u64],
    ghost as_many: { length high.now ≡ length low.now },
}
