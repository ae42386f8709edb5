// Counted pivots, at no cost: a count that contracts see and that takes no bytes when the program
// runs.
ghost use Rattle.std.specs.Prelude.{◌≡◌, ◌+◌, ◌<◌, ℕ};

use std::marker::Model;
use std::sync::ledger::{Blank, Book, Ledger, Share};

/// How many pivots were made. Contracts see it as a number. It takes no bytes, and only `tick`
/// changes it.
#[derive(Drop)]
pub struct PivotCount<L: Ledger> {
    book: Book<L>,
    share: Share<L>,
}

impl<L: Ledger> Model for PivotCount<L> {
    ghost Value = { ℕ };

    ghost view = { λ s. s.book.total };

    ghost invariant = { λ s. 0 < s.share.parts };
}

impl<L: Ledger> PivotCount<L> {
    /// A count of 0, on a blank of its ledger.
    pub fn new(blank: Blank) -> Self
        requires { (L.parts ≡ blank.parts) × (L.name ≡ blank.name) × (0 < blank.parts) }
        ensures { result ≡ 0 }
    {
        let (book, share) = blank.open::<L>();
        PivotCount { book, share }
    }

    /// Counts one pivot.
    pub fn tick(&mut self)
        ensures { self.new ≡ self.old + 1 }
    {
        self.book.add(&mut self.share, 1);
    }
}
