//! A count of the work of drawing, for proofs alone: it takes no bytes and no time.
ghost use Rattle.std.specs.Prelude.{◌≡◌, ◌+◌, ◌<◌};

use std::marker::Model;
use std::sync::ledger::{Book, Ledger, Share};

/// How many steps were taken. A step is a pixel that is made black as a draw buffer turns to an area, or one
/// that a colour is mixed over. Only `tick` changes it.
#[derive(Drop)]
pub struct Steps<L: Ledger> {
    book: Book<L>,
    all: Share<L>,
}

impl<L: Ledger> Model for Steps<L> {
    ghost use Rattle.std.specs.Prelude.{ℕ, ◌<◌};

    ghost Value = { ℕ };

    ghost view = { λ s. s.book.total };

    ghost invariant = { λ s. 0 < s.all.parts };
}

impl<L: Ledger> Steps<L> {
    /// No step yet. The ledger and its share come from opening a blank one of at least one part.
    pub fn new(book: Book<L>, all: Share<L>) -> Steps<L>
        requires fresh { book.total ≡ 0 }
        requires backed { 0 < all.parts }
        ensures { result ≡ 0 }
    {
        Steps { book, all }
    }

    /// One step more.
    #[inline(always)]
    pub fn tick(&mut self)
        ensures { self.new ≡ self.old + 1 }
    {
        self.book.add(&mut self.all, 1);
    }
}
