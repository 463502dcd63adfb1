ghost use Rattle.std.specs.Prelude.{◌≡◌, ◌-◌, ◌+◌, ◌<◌, ◌≤◌, length};
ghost use Rattle.std.specs.Result.{result_err};
ghost use Rattle.standing.specs.Standing.{takes, closes_loop, next_place, other_place};
ghost use Rattle.standing.specs.Paths.{shape_at};
ghost use Rattle.standing.specs.Entries.{mark_of, mark_floor, closes_mark, entry_broken, with_height, outer_entry, opened_entry, next_entry, other_entry};
ghost use Rattle.standing.specs.Search.{Leaves};
ghost use Rattle.standing.specs.declared.TheConstants.{MAX_HEIGHT, MAX_MARKS, MAX_INSTRUCTIONS};

use crate::entry::{Arrival, Entry, entry_at};
use crate::shape::{Mark, MarkKind, Reason, Shape, ensure, shape_at};

// A visit to an instruction: its shape, and what paths bring to it, which is within the limits.
#[derive(Clone, Copy)]
pub(crate) struct Visit<'t> {
    pub(crate) code: &'t [Shape],
    pub(crate) entries: &'t [Option<Entry>],
    pub(crate) place: u32,
    pub(crate) shape: Shape,
    pub(crate) entry: Entry,
    ghost short: { length code.now ≤ MAX_INSTRUCTIONS },
    ghost inside: { place < length code.now },
    ghost read: { shape ≡ shape_at code.now place },
    ghost low: { entry.height ≤ MAX_HEIGHT },
    ghost few: { entry.depth ≤ MAX_MARKS },
}

impl Visit<'_> {
    // What the instruction leaves, where it goes on and on its other way; or why it cannot stand there.
    pub(crate) fn leaves(&self) -> Result<(Arrival, Arrival), Reason>
        ensures { Leaves self.now.code.now self.now.entries.now self.now.place self.now.entry result }
    {
        self.stands()?;
        let next = Arrival {
            place: self.next_place(),
            entry: self.next_entry(),
        };
        let other = Arrival {
            place: self.other_place(),
            entry: self.other_entry(),
        };
        Ok((next, other))
    }

    // The innermost open mark.
    fn mark(&self) -> Option<Mark>
        ensures { result ≡ mark_of self.now.code.now self.now.entries.now self.now.entry.inner }
    {
        let place = self.entry.inner?;
        let entry = entry_at(self.entries, place)?;
        shape_at(self.code, place).opens(place, entry.height)
    }

    // Whether so many operands are there above those that stood when the innermost open mark began.
    fn takes(&self, mark: Option<Mark>, number: u16) -> Result<(), Reason>
        ensures { result_err result ≡ takes (mark_floor mark) number self.now.entry.height }
    {
        let floor = mark.map_or(0, |mark| mark.height);
        ensure(
            floor as u64 + number as u64 <= self.entry.height as u64,
            Reason::TakesBelow,
        )
    }

    // A recursive loop closes at the height at which it opened.
    fn closes_loop(&self, mark: Option<Mark>) -> Result<(), Reason>
        ensures { result_err result ≡ closes_mark (λ y. closes_loop self.now.entry.height y.kind y.height) mark }
    {
        match mark {
            Some(
                Mark {
                    kind: MarkKind::Loop { recursive },
                    height,
                    ..
                },
            ) => ensure(
                !recursive || self.entry.height == height,
                Reason::ClosesHigher,
            ),
            _ => Err(Reason::WrongPartner),
        }
    }

    // Whether the instruction can stand here. A table, as the definition is: a line for what each shape does.
    fn stands(&self) -> Result<(), Reason>
        ensures { result_err result ≡ entry_broken self.now.shape (mark_of self.now.code.now self.now.entries.now self.now.entry.inner) self.now.entry }
    {
        let mark = self.mark();
        let kind = mark.map(|mark| mark.kind);
        match self.shape {
            Shape::Plain { takes, .. } | Shape::Opens { takes, .. } => self.takes(mark, takes),
            Shape::Inside | Shape::Turn { .. } => ensure(self.entry.looped, Reason::NoLoop),
            Shape::Goto { .. } => Ok(()),
            Shape::Branch { .. } => self.takes(mark, 1),
            Shape::EndsScope => ensure(kind == Some(MarkKind::Scope), Reason::WrongPartner),
            Shape::EndsCapture => ensure(kind == Some(MarkKind::Capture), Reason::WrongPartner),
            Shape::EndsLoop => self.closes_loop(mark),
            Shape::Load => {
                self.takes(mark, 1)?;
                ensure(self.entry.clear, Reason::OpenCapture)
            }
        }
    }

    // The two places where the instruction goes on; mostly they are one. The two ways are the subject's own, so that each
    // has its function here as in the definitions.
    fn next_place(&self) -> u32
        ensures { result ≡ next_place self.now.shape self.now.place }
    {
        match self.shape {
            Shape::Goto { target } => target,
            _ => self.place + 1,
        }
    }

    fn other_place(&self) -> u32
        ensures { result ≡ other_place self.now.shape self.now.place }
    {
        match self.shape {
            Shape::Turn { target } | Shape::Goto { target } | Shape::Branch { target, .. } =>
                target,
            _ => self.place + 1,
        }
    }

    // What the instruction leaves where it goes on.
    fn next_entry(&self) -> Entry
        ensures { result ≡ next_entry self.now.entries.now self.now.shape self.now.place self.now.entry }
    {
        let height = self.entry.height;
        match self.shape {
            Shape::Plain { takes, gives } => self.after(takes, gives),
            Shape::Inside | Shape::Turn { .. } => self.after(0, 1),
            Shape::Goto { .. } => self.entry,
            Shape::Branch { .. } | Shape::Load => self.after(1, 0),
            Shape::Opens { kind, takes } => self.inside(kind, height.saturating_sub(takes as u32)),
            Shape::EndsScope | Shape::EndsLoop => self.outside(height),
            Shape::EndsCapture => self.outside(height + 1),
        }
    }

    // What it leaves on its other way, where it has one; else the same.
    fn other_entry(&self) -> Entry
        ensures { result ≡ other_entry self.now.entries.now self.now.shape self.now.place self.now.entry }
    {
        match self.shape {
            Shape::Turn { .. } => self.entry,
            Shape::Branch { gives, .. } => self.after(1, gives),
            _ => self.next_entry(),
        }
    }

    // What is left once operands are taken and given.
    fn after(&self, takes: u16, gives: u16) -> Entry
        ensures { result ≡ with_height (self.now.entry.height - takes + gives) self.now.entry }
    {
        let rest = self.entry.height.saturating_sub(takes as u32);
        self.entry.with_height(rest + gives as u32)
    }

    // What is left once a mark is opened at this height.
    fn inside(&self, kind: MarkKind, height: u32) -> Entry
        ensures { result ≡ opened_entry kind self.now.place height self.now.entry }
    {
        Entry {
            height,
            inner: Some(self.place),
            depth: self.entry.depth + 1,
            looped: kind.is_loop() || self.entry.looped,
            clear: !kind.is_capture() && self.entry.clear,
        }
    }

    // What is left once the innermost mark is closed: as where it opened, at this height.
    fn outside(&self, height: u32) -> Entry
        ensures { result ≡ outer_entry self.now.entries.now height self.now.entry.inner }
    {
        self.entry
            .inner
            .and_then(|place| entry_at(self.entries, place))
            .map_or(Entry::outermost(height), |entry| entry.with_height(height))
    }
}
