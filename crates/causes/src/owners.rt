// Each block, code and instruction is named exactly once: counted in one pass over the records that name,
// and one over those that are named.
ghost use Rattle.std.specs.Prelude.{◌≡◌, ◌+◌, [], ◌∷◌};
ghost use Rattle.std.specs.Result.{result_err};
ghost use Rattle.rules.specs.Rules.{namers as namers_of, run_start, run_end, code_named_by};
ghost use Rattle.rules.specs.declared.Owned.TheVariants as the;
ghost use Rattle.rules.specs.declared.Rule.TheVariants.{Owner};
ghost use Rattle.causes.specs.Causes.{breach, first_defect as defect_in};
ghost use Rattle.causes.specs.Tally.{CountsStarts, CountsEnds};

use crate::defect::Defect;
use crate::headed::Headed;
use layout::Layout;
use layout::records::{BlockRecord, CodeRecord, Span, TemplateRecord};
use layout::section::Section;
use rules::{Owned, Rule};

// A bundle has at most 65,536 bytes, so that it holds at most this many records of the smallest kind.
const MAX_NAMED: usize = 5457;

const PLACES: usize = MAX_NAMED + 1;

// How many runs of named records begin at a record, and how many end before it.
#[derive(Clone, Copy, PartialEq, Eq, Debug)]
pub struct Bounds {
    pub starts: usize,
    pub ends: usize,
}

impl Headed<'_> {
    // How many records name others.
    fn namers(self, owned: Owned) -> u32
        ensures { result ≡ namers_of self.entry.layout.bytes.now owned }
    {
        match owned {
            Owned::Block => self.layout.count(Section::Templates),
            Owned::Code => self.layout.count(Section::Templates)
                + self.layout.count(Section::Blocks),
            Owned::Instruction => self.layout.count(Section::Codes),
        }
    }

    // For each record, how many runs begin and end there. What lies past the last record counts at MAX_NAMED. The places
    // are the records' numbers, in fixed memory.
    fn tally(self, owned: Owned) -> [Bounds; PLACES]
        ensures starts { CountsStarts (namers_of self.entry.layout.bytes.now owned) self.entry.layout.bytes.now owned result }
        ensures ends { CountsEnds (namers_of self.entry.layout.bytes.now owned) self.entry.layout.bytes.now owned result }
    {
        let mut tally = [Bounds { starts: 0, ends: 0 }; PLACES];
        for namer in 0..self.namers(owned) {
            let run = named_run(self.layout, owned, namer);
            let first = run.first as usize;
            let end = first + run.count as usize;
            tally[first.min(MAX_NAMED)].starts += 1;
            tally[end.min(MAX_NAMED)].ends += 1;
        }
        tally
    }

    // The first record that is named more or less than once.
    fn first_not_owned_once(self, owned: Owned) -> Option<u32>
        ensures { result ≡ breach self.entry.layout.bytes.now (Owner owned) }
    {
        let tally = self.tally(owned);
        let mut owners = 0;
        for number in 0..self.layout.count(owned.section()) {
            // by its number, which is also what is given out
            let here = tally[number as usize];
            owners = owners + here.starts - here.ends;
            if owners != 1 {
                return Some(number);
            }
        }
        None
    }

    fn check_owned(self, owned: Owned) -> Result<(), Defect>
        ensures { result_err result ≡ defect_in self.entry.layout.bytes.now (Owner owned ∷ []) }
    {
        match self.first_not_owned_once(owned) {
            Some(record) => Err(Defect {
                rule: Rule::Owner(owned),
                record,
            }),
            None => Ok(()),
        }
    }
}

pub(crate) fn check_owners(headed: Headed<'_>) -> Result<(), Defect>
    ensures { result_err result ≡ defect_in headed.entry.layout.bytes.now (Owner the.Block ∷ Owner the.Code ∷ Owner the.Instruction ∷ []) }
{
    headed.check_owned(Owned::Block)?;
    headed.check_owned(Owned::Code)?;
    headed.check_owned(Owned::Instruction)
}

// The code that a template or a block names; the blocks are counted after the templates.
fn named_code(layout: Layout<'_>, namer: u32) -> u32
    ensures { result ≡ code_named_by layout.entry.bytes.now namer }
{
    let templates = layout.count(Section::Templates);
    if namer < templates {
        layout.record::<TemplateRecord>(namer).main
    } else {
        layout.record::<BlockRecord>(namer - templates).code
    }
}

// The run that one record names.
fn named_run(layout: Layout<'_>, owned: Owned, namer: u32) -> Span
    ensures { (result.first ≡ run_start layout.entry.bytes.now owned namer) × (result.first + result.count ≡ run_end layout.entry.bytes.now owned namer) }
{
    match owned {
        Owned::Block => layout.record::<TemplateRecord>(namer).blocks,
        Owned::Code => Span {
            first: named_code(layout, namer),
            count: 1,
        },
        Owned::Instruction => layout.record::<CodeRecord>(namer).instructions,
    }
}
