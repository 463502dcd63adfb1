ghost use Rattle.std.specs.Prelude.{◌≡◌, ◌+◌, ◌<◌, ◌≤◌, length, Some, None};
ghost use Rattle.arrayvec.specs.ArrayVec.{array_vec_len};
ghost use Rattle.standing.specs.Search.{unknowns, Noted, Searching, Visited, LeavesAt, Judged};
ghost use Rattle.standing.specs.declared.TheConstants.{MAX_INSTRUCTIONS};

use crate::entry::{Arrival, Entry, entry_at};
use crate::shape::{Broken, Reason, Shape};
use crate::table::PLACES;
use crate::visit::Visit;
use arrayvec::ArrayVec;

// A search through all places of a code that a path reaches, which visits each once.
#[derive(Drop)]
pub(crate) struct Search<'t> {
    code: &'t [Shape],
    entries: &'t mut [Option<Entry>],
    pending: &'t mut ArrayVec<u32, PLACES>,
    ghost short: { length code.now ≤ MAX_INSTRUCTIONS },
    ghost ends: { length entries.now ≡ length code.now + 1 },
}

impl<'t> Search<'t> {
    // Goes through all places that a path reaches, each once.
    pub(crate) fn run(
        code: &'t [Shape],
        entries: &'t mut [Option<Entry>],
        pending: &'t mut ArrayVec<u32, PLACES>,
    ) -> Result<(), Broken>
        requires short { length code.now ≤ MAX_INSTRUCTIONS }
        requires ends { length entries.old ≡ length code.now + 1 }
        ensures { Judged code.now entries.new result }
    {
        let mut search = Search::begin(code, entries, pending);
        while let Some(place) = search.pending.pop() {
            search
                .visit(place)
                .map_err(|reason| Broken { place, reason })?;
        }
        Ok(())
    }

    // A search that knows no more yet than what every path begins with.
    fn begin(
        code: &'t [Shape],
        entries: &'t mut [Option<Entry>],
        pending: &'t mut ArrayVec<u32, PLACES>,
    ) -> Search<'t>
        requires short { length code.now ≤ MAX_INSTRUCTIONS }
        requires ends { length entries.old ≡ length code.now + 1 }
        ensures same_entries { result.entries.ghost_name ≡ entries.entry.ghost_name }
        ensures same_code { result.code.now ≡ code.now }
        ensures begun { Searching code.now result.entries.now result.pending.now.items None }
    {
        entries.fill(None);
        entries[0] = Some(Entry::outermost(0));
        pending.clear();
        pending.push(0);
        Search {
            code,
            entries,
            pending,
        }
    }

    // Visits a place: the instruction there is not broken, and what it leaves is noted where it goes on.
    // That entries and code stay where they were is said by each method, since the struct holds a `&mut`.
    fn visit(&mut self, place: u32) -> Result<(), Reason>
        requires { Searching self.old.code.now self.old.entries.now self.old.pending.now.items (Some place) }
        ensures same_entries { self.new.entries.ghost_name ≡ self.old.entries.ghost_name }
        ensures same_code { self.new.code.now ≡ self.old.code.now }
        ensures visited { Visited self.old.code.now self.old.entries.now self.old.pending.now.items self.new.entries.now self.new.pending.now.items result }
    {
        if let Some((next, other)) = self.leaves(place)? {
            self.note(next)?;
            self.note(other)?;
        }
        Ok(())
    }

    // What the instruction at a place leaves, if there is one that a path reaches.
    fn leaves(&self, place: u32) -> Result<Option<(Arrival, Arrival)>, Reason>
        requires { Searching self.now.code.now self.now.entries.now self.now.pending.now.items (Some place) }
        ensures { LeavesAt self.now.code.now self.now.entries.now place result }
    {
        let Some(&shape) = self.code.get(place as usize) else {
            return Ok(None);
        };
        let Some(entry) = entry_at(self.entries, place) else {
            return Ok(None);
        };
        let visit = Visit {
            code: self.code,
            entries: self.entries,
            place,
            shape,
            entry,
        };
        visit.leaves().map(Some)
    }

    // Notes what a path brings to a place. A new entry makes the place pending.
    fn note(&mut self, arrival: Arrival) -> Result<(), Reason>
        requires { array_vec_len self.old.pending.now + unknowns self.old.entries.now ≤ length self.old.entries.now }
        ensures same_entries { self.new.entries.ghost_name ≡ self.old.entries.ghost_name }
        ensures same_code { self.new.code.now ≡ self.old.code.now }
        ensures noted { Noted self.old.entries.now self.old.pending.now.items (length self.old.code.now) arrival.place arrival.entry self.new.entries.now self.new.pending.now.items result }
    {
        arrival.within_limits(self.code.len() as u32)?;
        let place = arrival.place as usize;
        let known = self.entries[place];
        match known {
            Some(entry) if entry == arrival.entry => Ok(()),
            Some(_) => Err(Reason::PathsDiffer),
            None => {
                self.entries[place] = Some(arrival.entry);
                self.pending.push(arrival.place);
                Ok(())
            }
        }
    }
}
