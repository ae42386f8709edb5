// How often a call that was interrupted is repeated.

/// The most calls of std for one call of ours: the first, and 1,000 repeats.
pub(crate) const MOST_TRIES: u32 = 1001;
