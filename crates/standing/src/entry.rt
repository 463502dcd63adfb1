ghost use Rattle.std.specs.Prelude.{◌≡◌};
ghost use Rattle.std.specs.Result.{result_err};
ghost use Rattle.standing.specs.Entries.{item, outermost, with_height};
ghost use Rattle.standing.specs.Search.{limits};

use crate::shape::{Reason, ensure};
use crate::{MAX_HEIGHT, MAX_MARKS};

// What the table keeps of a standing: the operand height, the instruction of the innermost mark, how many marks are open,
// whether one of them is a loop's, and whether none is a capture's. The other marks are read from the entries of the
// instructions that opened them.
#[derive(Clone, Copy, PartialEq, Eq, Debug)]
pub struct Entry {
    pub height: u32,
    pub inner: Option<u32>,
    pub depth: u32,
    pub looped: bool,
    pub clear: bool,
}

impl Entry {
    // As where no mark is open.
    pub(crate) fn outermost(height: u32) -> Entry
        ensures { result ≡ outermost height }
    {
        Entry {
            height,
            inner: None,
            depth: 0,
            looped: false,
            clear: true,
        }
    }

    pub(crate) fn with_height(self, height: u32) -> Entry
        ensures { result ≡ with_height height self }
    {
        Entry { height, ..self }
    }
}

// What the table has for a place, if it has an entry there.
pub(crate) fn entry_at(entries: &[Option<Entry>], place: u32) -> Option<Entry>
    ensures { result ≡ item entries.now place }
{
    entries.get(place as usize).copied().flatten()
}

// What a path brings, and the place that it brings it to.
#[derive(Clone, Copy)]
pub(crate) struct Arrival {
    pub(crate) place: u32,
    pub(crate) entry: Entry,
}

impl Arrival {
    // Whether the entry can stand at its place in a code with `last` instructions, whatever paths bring it there.
    pub(crate) fn within_limits(self, last: u32) -> Result<(), Reason>
        ensures { result_err result ≡ limits last self.place self.entry }
    {
        let entry = self.entry;
        ensure(self.place <= last, Reason::Outside)?;
        ensure(entry.height <= MAX_HEIGHT, Reason::TooHigh)?;
        ensure(entry.depth <= MAX_MARKS, Reason::TooManyMarks)?;
        let empty = entry.height == 0 && entry.depth == 0;
        ensure(self.place != last || empty, Reason::NotEmptyAtEnd)
    }
}
