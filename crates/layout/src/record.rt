// How the records are read: which section holds them, and where their fields stand.
ghost use Rattle.std.specs.Prelude.{◌≡◌, ℕ, ◌+◌, ◌^◌, ◌<◌, List};
ghost use Rattle.layout.specs.declared.section.Section.{Section};
ghost use Rattle.layout.specs.declared.section.Section.TheVariants.{Templates, Blocks, Codes, Instructions, Constants};
ghost use Rattle.layout.specs.Layout.{template_at, block_at, code_at, instruction_at, constant_at, span_at};

use crate::place::Place;
use crate::records::{
    BlockRecord, CodeRecord, ConstantRecord, InstructionRecord, Span, TemplateRecord,
};
use crate::section::Section;

// A kind of record of the bundle.
pub trait Record {
    ghost section: { Section };

    ghost fields_at: { List ℕ → ℕ → Self };

    // The section that holds these records.
    fn section() -> Section
        ensures { result ≡ section };

    // The record that begins at this place.
    fn read(place: Place<'_>) -> Self
        ensures { result ≡ fields_at place.entry.bytes.now place.entry.at };
}

impl Place<'_> {
    // A number and then another: where a run of records or bytes begins, and how long it is.
    fn span(self, field: u8) -> Span
        requires { field < 2 ^ 7 }
        ensures { result ≡ span_at self.entry.bytes.now (self.entry.at + field) }
    {
        Span {
            first: self.u32(field),
            count: self.u32(field + 4),
        }
    }
}

impl Record for TemplateRecord {
    ghost section = { Templates };

    ghost fields_at = { template_at };

    fn section() -> Section {
        Section::Templates
    }

    fn read(place: Place<'_>) -> TemplateRecord {
        TemplateRecord {
            name: place.span(0),
            main: place.u32(8),
            blocks: place.span(12),
        }
    }
}

impl Record for BlockRecord {
    ghost section = { Blocks };

    ghost fields_at = { block_at };

    fn section() -> Section {
        Section::Blocks
    }

    fn read(place: Place<'_>) -> BlockRecord {
        BlockRecord {
            name: place.span(0),
            code: place.u32(8),
        }
    }
}

impl Record for CodeRecord {
    ghost section = { Codes };

    ghost fields_at = { code_at };

    fn section() -> Section {
        Section::Codes
    }

    fn read(place: Place<'_>) -> CodeRecord {
        CodeRecord {
            instructions: place.span(0),
            flag: place.u32(8),
        }
    }
}

impl Record for InstructionRecord {
    ghost section = { Instructions };

    ghost fields_at = { instruction_at };

    fn section() -> Section {
        Section::Instructions
    }

    fn read(place: Place<'_>) -> InstructionRecord {
        InstructionRecord {
            kind: place.u8(0),
            small: place.u8(1),
            argc: place.u16(2),
            a: place.u32(4),
            b: place.u32(8),
            line: place.u16(12),
            zero: place.u16(14),
        }
    }
}

impl Record for ConstantRecord {
    ghost section = { Constants };

    ghost fields_at = { constant_at };

    fn section() -> Section {
        Section::Constants
    }

    fn read(place: Place<'_>) -> ConstantRecord {
        ConstantRecord {
            kind: place.u32(0),
            a: place.u32(4),
            b: place.u32(8),
        }
    }
}
