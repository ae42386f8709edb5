// A pivot of a path whose steps do not all fit.
use frac128::Unfit;

/// The pivot of a path that has a step that does not fit.
#[derive(Clone, Copy, Debug, PartialEq, Eq)]
pub struct UnfitPivot {
    /// Its number, counted from 1: 2^64 - 1 stands for every later one too.
    pub number: u64,
    /// The entering variable.
    pub entering: u32,
    /// The first step that does not fit.
    pub unfit: Unfit,
}
