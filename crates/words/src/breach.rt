// A broken rule of the format in words: the record that breaks it, what is wrong, and where.
use crate::details::Detail;
use causes::defect::Defect;
use instruction::{constant_allowed, fields_of_kind};
use layout::Layout;
use layout::record::Record;
use layout::records::{BlockRecord, CodeRecord, ConstantRecord, InstructionRecord, TemplateRecord};
use layout::section::Section;
use rules::{RecordRule, Rule, first_jump_outside, first_load, first_repeated_block};
use std::fmt;

// A defect of the bundle that the layout reads.
#[derive(Clone, Copy)]
pub(super) struct Breach<'b> {
    pub(super) layout: Layout<'b>,
    pub(super) defect: Defect,
}

impl fmt::Display for Breach<'_> {
    fn fmt<W: fmt::Write>(&self, f: &mut fmt::Formatter<W>) -> fmt::Result {
        let Defect { rule, record } = self.defect;
        match rule.section() {
            Some(section) => write!(f, "{} {record}: {rule}", record_name(section))?,
            None => write!(f, "header: {rule}")?,
        }
        match self.detail() {
            Some(detail) => write!(f, ": {detail}"),
            None => Ok(()),
        }
    }
}

// What one record of the section is called: its `Display` has the plural.
fn record_name(section: Section) -> &'static str {
    match section {
        Section::Templates => "template",
        Section::Blocks => "block",
        Section::Codes => "code",
        Section::Instructions => "instruction",
        Section::Constants => "constant",
        Section::Text => "text",
    }
}

impl<'b> Breach<'b> {
    // The record that breaks the rule.
    fn record<R: Record>(self) -> R {
        self.layout.record(self.defect.record)
    }

    fn detail(self) -> Option<Detail<'b>> {
        match self.defect.rule {
            Rule::Record(rule) => self.detail_of(rule),
            Rule::Owner(_) => None,
            Rule::BlockNameLimit => Some(Detail::Name(
                self.layout.text(self.record::<BlockRecord>().name),
            )),
        }
    }

    fn detail_of(self, rule: RecordRule) -> Option<Detail<'b>> {
        let layout = self.layout;
        Some(match rule {
            RecordRule::Size => Detail::Number(layout.bytes.len() as u64),
            RecordRule::TemplateLimit => Detail::Number(layout.count(Section::Templates) as u64),
            RecordRule::SectionStart(section) => Detail::Start {
                section,
                offset: layout.offset(section),
            },
            RecordRule::TemplateMain | RecordRule::MainFlag => Detail::Code(
                self.record::<TemplateRecord>().main,
            ),
            RecordRule::BlockCode => Detail::Code(self.record::<BlockRecord>().code),
            RecordRule::InstructionConstant => Detail::Number(
                self.record::<InstructionRecord>().a as u64,
            ),
            RecordRule::JumpTargets => self.jump()?,
            RecordRule::CodeLength => Detail::Number(
                self.record::<CodeRecord>().instructions.count as u64,
            ),
            RecordRule::CodeFlag => Detail::Number(self.record::<CodeRecord>().flag as u64),
            RecordRule::InstructionKind => Detail::Number(
                self.record::<InstructionRecord>().kind as u64,
            ),
            RecordRule::InstructionFields => self.instruction_field()?,
            RecordRule::ConstantKind => Detail::Number(self.record::<ConstantRecord>().kind as u64),
            RecordRule::ConstantFields => self.constant_field()?,
            RecordRule::LoadOutsideMain => self.load()?,
            RecordRule::TemplateNames => Detail::Name(layout.text(
                self.record::<TemplateRecord>().name,
            )),
            RecordRule::BlockNames => self.repeated_name()?,
            RecordRule::BundleEnd | RecordRule::TemplateName | RecordRule::TemplateBlocks =>
                return None,
            RecordRule::BlockName | RecordRule::CodeInstructions => return None,
            RecordRule::InstructionText | RecordRule::ConstantText => return None,
        })
    }

    // The first jump of a code that goes past its end.
    fn jump(self) -> Option<Detail<'b>> {
        let place = first_jump_outside(self.layout, self.defect.record)?;
        let first = self.record::<CodeRecord>().instructions.first;
        let target = self.layout.record_from::<InstructionRecord>(first, place).a;
        Some(Detail::Jump { place, target })
    }

    // The first LoadBlocks in the code of a block.
    fn load(self) -> Option<Detail<'b>> {
        let code = self.record::<BlockRecord>().code;
        let place = first_load(self.layout, code)?;
        Some(Detail::Load { code, place })
    }

    // The first name of a template's block that an earlier one of its blocks has.
    fn repeated_name(self) -> Option<Detail<'b>> {
        let place = first_repeated_block(self.layout, self.defect.record)?;
        let first = self.record::<TemplateRecord>().blocks.first;
        let block = self.layout.record_from::<BlockRecord>(first, place);
        Some(Detail::Name(self.layout.text(block.name)))
    }

    // The first field of an instruction that its kind would not allow even alone.
    fn instruction_field(self) -> Option<Detail<'b>> {
        let raw = self.record::<InstructionRecord>();
        let fields = fields_of_kind(raw.kind);
        let none = InstructionRecord {
            small: 0,
            argc: 0,
            a: 0,
            b: 0,
            zero: 0,
            ..raw
        };
        let small = InstructionRecord {
            small: raw.small,
            ..none
        };
        let argc = InstructionRecord {
            argc: raw.argc,
            ..none
        };
        let a = InstructionRecord { a: raw.a, ..none };
        let b = InstructionRecord { b: raw.b, ..none };
        let zero = InstructionRecord {
            zero: raw.zero,
            ..none
        };
        let alone = [
            ("small", raw.small as u32, small),
            ("argc", raw.argc as u32, argc),
            ("a", raw.a, a),
            ("b", raw.b, b),
            ("the number in the last two bytes", raw.zero as u32, zero),
        ];
        let (name, value, _) = alone
            .into_iter()
            .find(|(_, _, record)| !fields.fields_allowed(*record))?;
        Some(Detail::Field { name, value })
    }

    // The first field of a constant that its kind would not allow even alone.
    fn constant_field(self) -> Option<Detail<'b>> {
        let raw = self.record::<ConstantRecord>();
        let a = ConstantRecord { b: 0, ..raw };
        let b = ConstantRecord { a: 0, ..raw };
        let (name, value, _) = [("a", raw.a, a), ("b", raw.b, b)]
            .into_iter()
            .find(|(_, _, record)| !constant_allowed(*record))?;
        Some(Detail::Field { name, value })
    }
}
