ghost use Rattle.std.specs.Prelude.{◌≡◌, ◌+◌, length, take, replicate, None};
ghost use Rattle.standing.specs.Entries.{item};
ghost use Rattle.standing.specs.Search.{Judged};

use crate::MAX_INSTRUCTIONS;
use crate::entry::{Entry, entry_at};
use crate::search::Search;
use crate::shape::{Broken, Reason, Shape};
use arrayvec::ArrayVec;

// The end of a code is a place too.
pub const PLACES: usize = MAX_INSTRUCTIONS + 1;

// The memory of the check: an entry for each place that a path reaches, and the places that are still to be visited.
// It is fixed, since nothing is allocated: so an entry leads by number to that of the instruction that opened its mark.
#[derive(Drop)]
pub struct Table {
    entries: [Option<Entry>; PLACES],
    pending: ArrayVec<u32, PLACES>,
}

impl Table {
    pub fn new() -> Table
        ensures { result.entries ≡ replicate 1025 None }
    {
        Table {
            entries: [None; PLACES],
            pending: ArrayVec::new(),
        }
    }

    // Whether the code stands. If it does, the table has what the paths bring to each of its places, the end too.
    pub fn check(&mut self, code: &[Shape]) -> Result<(), Broken>
        ensures { Judged code.now (take (length code.now + 1) self.new.entries) result }
    {
        if code.len() > MAX_INSTRUCTIONS {
            return Err(Broken {
                place: 0,
                reason: Reason::TooLong,
            });
        }
        let places = code.len() + 1;
        Search::run(code, &mut self.entries[0..places], &mut self.pending)
    }

    // What the table has for a place.
    pub fn entry(&self, place: u32) -> Option<Entry>
        ensures { result ≡ item self.now.entries place }
    {
        entry_at(&self.entries, place)
    }
}

#[cfg(test)]
mod tests {
    use super::*;
    use crate::shape::MarkKind;
    use std::test::Fail;

    const LOOP: Shape = Shape::Opens {
        kind: MarkKind::Loop { recursive: false },
        takes: 1,
    };

    #[test]
    fn keeps_what_paths_bring(rt: HostRuntime) -> Result<(), Fail> {
        let mut table = Table::new();
        let item = Shape::Plain { takes: 0, gives: 1 };
        let code = [
            item,
            LOOP,
            Shape::Turn { target: 4 },
            Shape::Load,
            Shape::EndsLoop,
        ];
        assert_eq!(rt; table.check(&code), Ok(()));
        let inside = Entry {
            height: 1,
            inner: Some(1),
            depth: 1,
            looped: true,
            clear: true,
        };
        assert_eq!(rt; table.entry(3), Some(inside));
        assert_eq!(rt; table.entry(5), Some(Entry::outermost(0)));
        assert_eq!(rt; table.entry(6), None);
        Ok(())
    }

    #[test]
    fn names_what_is_broken(rt: HostRuntime) -> Result<(), Fail> {
        let mut table = Table::new();
        let broken = Broken {
            place: 0,
            reason: Reason::NoLoop,
        };
        assert_eq!(rt; table.check(&[Shape::Inside]), Err(broken));
        let long = [Shape::Inside; MAX_INSTRUCTIONS + 1];
        let broken = Broken {
            place: 0,
            reason: Reason::TooLong,
        };
        assert_eq!(rt; table.check(&long), Err(broken));
        Ok(())
    }
}
