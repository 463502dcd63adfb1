// What a byte string says, read as a bundle, and why it would not open as far as its format goes.
#![tactic(auto)]

ghost use Rattle.std.specs.Prelude.{◌≡◌, ◌+◌, ◌<◌, length, IfOk, IfSome, if◌then◌else◌, Some, None, nat_lt};
ghost use Rattle.std.specs.Option.{option_map};
ghost use Rattle.std.specs.List.{slice_get};
ghost use Rattle.layout.specs.Layout.{records, header as header_of, code as code_record};
ghost use Rattle.instruction.specs.Kinds.{constant_of};
ghost use Rattle.instruction.specs.Seen.{instruction_seen, constant_seen};
ghost use Rattle.causes.specs.Causes.{cause as format_cause, defect};
ghost use Rattle.bundle.specs.Decoded.{program, block as decoded_block, code as decoded_code, fetched, record_at, line_of};
ghost use Rattle.bundle.specs.View.{code_view, block_view, template_view, bytes as bytes_of, told, refusal};
ghost use Rattle.bundle.specs.Sections.{SectionsFillTheBundle};
ghost use Rattle.bundle.specs.Owners.{RecordsHaveOneOwner};
ghost use Rattle.bundle.specs.Agreement.{AgreeingBundlesHoldOneProgram};

pub mod view;

use causes::check;
use causes::defect::Defect;
use instruction::instructions::{Constant, Instruction};
use instruction::{decode, read_constant};
use layout::Layout;
use layout::records::{BlockRecord, CodeRecord, InstructionRecord, TemplateRecord};
use layout::section::{Header, Section};
use view::{Block, Code, Examined, Template};

// The lowest of the causes 1 to 4 that these bytes have, with the record that shows it,
// or else the value through which they are read.
#[tactic(auto, using(crate::proofs::Owning::records_have_one_owner, crate::proofs::Agreeing::agreeing_hold_one_program))]
pub fn examine<'b>(bytes: &'b [u8]) -> Result<Examined<'b>, Defect>
    ensures lowest { told result ≡ format_cause bytes.now }
    ensures refused { refusal result ≡ defect bytes.now }
    ensures accepted { IfOk result (λ e. bytes_of e ≡ bytes.now) }
    ensures sections { SectionsFillTheBundle bytes.now }
    ensures owners { RecordsHaveOneOwner bytes.now }
    ensures content { AgreeingBundlesHoldOneProgram bytes.now }
{
    checked(bytes)
}

// The check proves this by itself; `examine` adds the laws.
fn checked<'b>(bytes: &'b [u8]) -> Result<Examined<'b>, Defect>
    ensures lowest { told result ≡ format_cause bytes.now }
    ensures refused { refusal result ≡ defect bytes.now }
    ensures accepted { IfOk result (λ e. bytes_of e ≡ bytes.now) }
{
    check(bytes)?;
    Ok(Examined {
        layout: Layout { bytes },
    })
}

impl<'b> Examined<'b> {
    pub fn bytes(self) -> &'b [u8]
        ensures { result.now ≡ self.entry.layout.bytes.now }
    {
        self.layout.bytes
    }

    pub fn header(self) -> Header
        ensures { result ≡ header_of self.entry.layout.bytes.now }
    {
        self.layout.header()
    }

    #[tactic(auto, using(crate::proofs::Reading::template_read, crate::proofs::Reading::template_past))]
    pub fn template(self, number: u32) -> Option<Template<'b>>
        ensures { option_map template_view result ≡ slice_get (program self.entry.layout.bytes.now) number }
    {
        let raw = self.layout.get::<TemplateRecord>(number)?;
        Some(Template {
            layout: self.layout,
            raw,
        })
    }

    pub fn block(self, number: u32) -> Option<Block<'b>>
        ensures { option_map block_view result ≡ (if nat_lt number (records self.entry.layout.bytes.now Section.Blocks) then Some (decoded_block self.entry.layout.bytes.now number) else None) }
    {
        let raw = self.layout.get::<BlockRecord>(number)?;
        Some(Block {
            layout: self.layout,
            raw,
        })
    }

    pub fn code(self, number: u32) -> Option<Code<'b>>
        ensures value { option_map code_view result ≡ (if nat_lt number (records self.entry.layout.bytes.now Section.Codes) then Some (decoded_code self.entry.layout.bytes.now number) else None) }
        ensures place { IfSome result (λ c. (c.layout.bytes.now ≡ self.entry.layout.bytes.now) × (c.number ≡ number)) }
    {
        if self.layout.has(Section::Codes, number) {
            Some(Code {
                layout: self.layout,
                number,
            })
        } else {
            None
        }
    }

    pub fn constant(self, number: u32) -> Option<Constant<'b>>
        ensures { option_map constant_seen result ≡ (if nat_lt number (records self.entry.layout.bytes.now Section.Constants) then constant_of self.entry.layout.bytes.now number else None) }
    {
        if self.layout.has(Section::Constants, number) {
            read_constant(self.layout, number)
        } else {
            None
        }
    }
}

impl<'b> Template<'b> {
    // As of a block: a trait for the two would say no more.
    pub fn name(self) -> &'b [u8]
        ensures { result.now ≡ (template_view self.entry).name }
    {
        let name = self.raw.name;
        self.layout.text(name)
    }

    // What runs when the template is entered.
    pub fn main(self) -> Code<'b>
        ensures { code_view result ≡ (template_view self.entry).main }
    {
        Code {
            layout: self.layout,
            number: self.raw.main,
        }
    }

    #[tactic(auto, using(layout::proofs::Listed::length_listed))]
    pub fn block_count(self) -> u32
        ensures { result ≡ length (template_view self.entry).blocks }
    {
        self.raw.blocks.count
    }

    // The check proves this by itself; `block` says that it is the block of the program.
    fn block_at(self, place: u32) -> Option<Block<'b>>
        ensures { option_map block_view result ≡ (if nat_lt place self.entry.raw.blocks.count then Some (decoded_block self.entry.layout.bytes.now (self.entry.raw.blocks.first + place)) else None) }
    {
        let raw = self.layout.get_in::<BlockRecord>(self.raw.blocks, place)?;
        Some(Block {
            layout: self.layout,
            raw,
        })
    }

    pub fn block(self, place: u32) -> Option<Block<'b>>
        ensures { option_map block_view result ≡ slice_get (template_view self.entry).blocks place }
    {
        self.block_at(place)
    }
}

impl<'b> Block<'b> {
    pub fn name(self) -> &'b [u8]
        ensures { result.now ≡ (block_view self.entry).name }
    {
        self.layout.text(self.raw.name)
    }

    pub fn code(self) -> Code<'b>
        ensures { code_view result ≡ (block_view self.entry).code }
    {
        Code {
            layout: self.layout,
            number: self.raw.code,
        }
    }
}

impl<'b> Code<'b> {
    fn raw(self) -> CodeRecord
        ensures { result ≡ code_record self.entry.layout.bytes.now self.entry.number }
    {
        self.layout.record::<CodeRecord>(self.number)
    }

    // The record of the instruction at this place, or none past the end.
    fn record(self, place: u32) -> Option<InstructionRecord>
        ensures { result ≡ record_at self.entry.layout.bytes.now self.entry.number place }
    {
        self.layout.get_in(self.raw().instructions, place)
    }

    #[tactic(auto, using(layout::proofs::Listed::length_listed))]
    pub fn len(self) -> u32
        ensures { result ≡ length (code_view self.entry).steps }
    {
        self.raw().instructions.count
    }

    // Whether it is the code of a block that has to be overridden.
    pub fn is_required_block(self) -> bool
        ensures { result ≡ (code_view self.entry).required }
    {
        self.raw().flag == 1
    }

    // The check proves this by itself; `get` adds that it is the step of the program.
    fn fetch(self, place: u32) -> Option<Instruction<'b>>
        ensures { option_map instruction_seen result ≡ fetched self.entry.layout.bytes.now self.entry.number place }
    {
        decode(self.layout, self.record(place)?)
    }

    // The instruction at this place, or none past the end.
    pub fn get(self, place: u32) -> Option<Instruction<'b>>
        ensures value { option_map instruction_seen result ≡ fetched self.entry.layout.bytes.now self.entry.number place }
        ensures step { self.entry.number < records self.entry.layout.bytes.now Section.Codes → option_map instruction_seen result ≡ option_map (λ s. s.instruction) (slice_get (code_view self.entry).steps place) }
    {
        self.fetch(place)
    }

    // The line in the source that the instruction at this place comes from, or none where that is not known.
    #[tactic(auto, using(crate::proofs::Fetching::line_is))]
    pub fn get_line(self, place: u32) -> Option<u16>
        ensures { result ≡ line_of (slice_get (code_view self.entry).steps place) }
    {
        let line = self.record(place)?.line;
        if line == 0 { None } else { Some(line) }
    }
}
