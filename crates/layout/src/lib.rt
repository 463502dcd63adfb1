// The layout of a bundle: which bytes hold which numbers, names and texts.
// Every function here is total: it reads any byte string, and a byte past the end as 0.
#![tactic(auto)]

ghost use Rattle.std.specs.Prelude.{◌≡◌, ◌+◌, ◌*◌, ◌<◌, ◌≤◌, IfSome, IfNone, if◌then◌else◌, Some, None, nat_lt};
ghost use Rattle.layout.specs.Layout.{records as records_of, start, extent as extent_of, header as header_of, size as size_of, place as place_of, at, text as text_of};

pub mod below;
pub mod place;
pub mod record;
pub mod records;
pub mod section;

use place::Place;
use record::Record;
use records::Span;
use section::{Extent, Header, Section};

// A byte string, read as a bundle.
#[derive(Clone, Copy)]
pub struct Layout<'b> {
    pub bytes: &'b [u8],
}

impl Section {
    // How many bytes one of its records has.
    pub fn record_size(self) -> u32
        ensures { result ≡ size_of self }
    {
        match self {
            Section::Templates => 20,
            Section::Blocks => 12,
            Section::Codes => 12,
            Section::Instructions => 16,
            Section::Constants => 12,
            Section::Text => 1,
        }
    }

    // Which of the sections it is, in the order of the header.
    fn place(self) -> usize
        ensures { (result ≡ place_of self) × (result ≤ 5) }
    {
        self as usize
    }
}

impl<'b> Layout<'b> {
    // Where the header speaks of a section.
    fn header_place(self, section: Section) -> Place<'b>
        ensures { (result.bytes.now ≡ self.entry.bytes.now) × (result.at ≡ 8 * place_of section) }
    {
        Place {
            bytes: self.bytes,
            at: 8 * section.place(),
        }
    }

    // How many records a section has.
    pub fn count(self, section: Section) -> u32
        ensures { result ≡ records_of self.entry.bytes.now section }
    {
        self.header_place(section).u32(0)
    }

    // Where a section begins.
    pub fn offset(self, section: Section) -> u32
        ensures { result ≡ start self.entry.bytes.now section }
    {
        self.header_place(section).u32(4)
    }

    fn extent(self, section: Section) -> Extent
        ensures { result ≡ extent_of self.entry.bytes.now section }
    {
        Extent {
            count: self.count(section),
            offset: self.offset(section),
        }
    }

    pub fn header(self) -> Header
        ensures { result ≡ header_of self.entry.bytes.now }
    {
        Header {
            templates: self.extent(Section::Templates),
            blocks: self.extent(Section::Blocks),
            codes: self.extent(Section::Codes),
            instructions: self.extent(Section::Instructions),
            constants: self.extent(Section::Constants),
            text: self.extent(Section::Text),
        }
    }

    // The record with this number.
    pub fn record<R: Record>(self, number: u32) -> R
        ensures { result ≡ R.fields_at self.entry.bytes.now (at self.entry.bytes.now R.section number) }
    {
        self.record_from(number, 0)
    }

    // The record that stands `place` records after the record `first`.
    pub fn record_from<R: Record>(self, first: u32, place: u32) -> R
        ensures { result ≡ R.fields_at self.entry.bytes.now (at self.entry.bytes.now R.section (first + place)) }
    {
        let section = R::section();
        let number = first as usize + place as usize;
        R::read(Place {
            bytes: self.bytes,
            at: self.offset(section) as usize + section.record_size() as usize * number,
        })
    }

    // Whether the section has a record with this number.
    pub fn has(self, section: Section, number: u32) -> bool
        ensures { result ≡ nat_lt number (records_of self.entry.bytes.now section) }
    {
        number < self.count(section)
    }

    // The record with this number, or none where the section has none.
    pub fn get<R: Record>(self, number: u32) -> Option<R>
        ensures found { IfSome result (λ r. (number < records_of self.entry.bytes.now R.section) × (r ≡ R.fields_at self.entry.bytes.now (at self.entry.bytes.now R.section number))) }
        ensures past { IfNone result (records_of self.entry.bytes.now R.section ≤ number) }
    {
        if self.has(R::section(), number) {
            Some(self.record(number))
        } else {
            None
        }
    }

    // The record at this place of a run of records, or none past its end.
    pub fn get_in<R: Record>(self, run: Span, place: u32) -> Option<R>
        ensures { result ≡ (if nat_lt place run.count then Some (R.fields_at self.entry.bytes.now (at self.entry.bytes.now R.section (run.first + place))) else None) }
    {
        if place < run.count {
            Some(self.record_from(run.first, place))
        } else {
            None
        }
    }

    // The part of the text section that a record names, as far as the bytes reach.
    pub fn text(self, span: Span) -> &'b [u8]
        ensures { result.now ≡ text_of self.entry.bytes.now span }
    {
        let offset = self.offset(Section::Text) as usize + span.first as usize;
        let from = offset.min(self.bytes.len());
        let to = (from + span.count as usize).min(self.bytes.len());
        &self.bytes[from..to]
    }
}
