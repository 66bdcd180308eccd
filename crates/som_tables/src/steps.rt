//! The count of a look-up's steps, which a proof sees and no code keeps.

ghost use Rattle.std.specs.Prelude.{◌≡◌, ◌+◌, ◌<◌, length, slice_get, Some};
ghost use Rattle.som_tables.specs.Layout.{start_of};

use crate::ClassNo;
use crate::line::Line;
use crate::place::Place;
use crate::starts::start_in;
use std::marker::Model;
use std::sync::ledger::{Blank, Book, Ledger, Share};

/// How many steps were taken. It takes no bytes, and only `tick` and what calls it change it.
#[derive(Drop)]
pub struct Steps<L: Ledger> {
    book: Book<L>,
    share: Share<L>,
}

impl<L: Ledger> Model for Steps<L> {
    ghost use Rattle.std.specs.Prelude.{ℕ, ◌<◌};

    ghost Value = { ℕ };

    ghost view = { λ s. s.book.total };

    ghost invariant = { λ s. 0 < s.share.parts };
}

impl<L: Ledger> Steps<L> {
    pub fn new(blank: Blank) -> Steps<L>
        requires name { blank.name ≡ L.name }
        requires parts { blank.parts ≡ L.parts }
        requires some { 0 < blank.parts }
        ensures { result ≡ 0 }
    {
        let (book, share) = blank.open::<L>();
        Steps { book, share }
    }

    /// Counts a step. No code runs for it.
    pub fn tick(&mut self)
        ensures { self.new ≡ self.old + 1 }
    {
        self.book.add(&mut self.share, 1);
    }

    /// A read of memory, which is one step.
    pub(crate) fn read<T: Copy>(&mut self, items: &[T], place: usize) -> T
        requires { place < length items.now }
        ensures item { slice_get items.now place ≡ Some result }
        ensures cost { self.new ≡ self.old + 1 }
    {
        self.tick();
        items[place]
    }

    /// A look-up of where a block begins, which is one step.
    pub(crate) fn look_up(
        &mut self,
        lines: &[Option<Line>],
        starts: &[Place],
        class: ClassNo,
        of: ClassNo,
    ) -> Place
        ensures start { result ≡ start_of lines.now starts.now class of }
        ensures cost { self.new ≡ self.old + 1 }
    {
        self.tick();
        start_in(lines, starts, class, of)
    }
}
