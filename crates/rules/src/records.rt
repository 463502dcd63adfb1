// The rules that speak of one record at a time.
ghost use Rattle.std.specs.Prelude.{◌≡◌, ◌+◌, not, ◌&&◌, nat_le};
ghost use Rattle.layout.specs.Bounded.{first_not as first_not_below};
ghost use Rattle.layout.specs.Layout.{code};
ghost use Rattle.rules.specs.Rules.{inside, finish as finish_of, due as due_of, jumps_inside, loads as loads_at, keeps_record, scope_record};

use crate::RecordRule;
use crate::names::{first_repeated_block, is_new_template};
use instruction::constants::ConstantKind;
use instruction::kind::Kind;
use instruction::{constant_allowed, fields_of_kind};
use layout::Layout;
use layout::below::first_not;
use layout::records::{
    BlockRecord, CodeRecord, ConstantRecord, InstructionRecord, Span, TemplateRecord,
};
use layout::section::Section;

pub const MIN_SIZE: usize = 48;

pub const MAX_SIZE: usize = 65536;

pub const MAX_TEMPLATES: u32 = 64;

// `standing` has this too, and knows nothing of bundles: that the two agree is proved in `opening`.
pub const MAX_INSTRUCTIONS: u32 = 1024;

pub const MAX_BLOCK_NAMES: usize = 32;

fn size_allowed(size: usize) -> bool
    ensures { result ≡ (nat_le 48 size && nat_le size 65536) }
{
    MIN_SIZE <= size && size <= MAX_SIZE
}

// Whether these records lie in the section.
fn is_inside(layout: Layout<'_>, section: Section, run: Span) -> bool
    ensures { result ≡ inside layout.entry.bytes.now section run }
{
    run.first as u64 + run.count as u64 <= layout.count(section) as u64
}

// Where a section ends.
fn finish(layout: Layout<'_>, section: Section) -> u64
    ensures { result ≡ finish_of layout.entry.bytes.now section }
{
    layout.offset(section) as u64 + section.record_size() as u64 * layout.count(section) as u64
}

// Where a section has to begin.
fn due(layout: Layout<'_>, section: Section) -> u64
    ensures { result ≡ due_of layout.entry.bytes.now section }
{
    match section {
        Section::Templates => 48,
        Section::Blocks => finish(layout, Section::Templates),
        Section::Codes => finish(layout, Section::Blocks),
        Section::Instructions => finish(layout, Section::Codes),
        Section::Constants => finish(layout, Section::Instructions),
        Section::Text => finish(layout, Section::Constants),
    }
}

// As of a constant below: another record, with another test of its kind.
fn text_of_instruction_inside(layout: Layout<'_>, number: u32) -> bool
    ensures { result ≡ keeps_record layout.entry.bytes.now RecordRule.InstructionText number }
{
    let raw = layout.record::<InstructionRecord>(number);
    let text = Span {
        first: raw.a,
        count: raw.b,
    };
    !fields_of_kind(raw.kind).takes_text() || is_inside(layout, Section::Text, text)
}

fn constant_of_instruction_inside(layout: Layout<'_>, number: u32) -> bool
    ensures { result ≡ keeps_record layout.entry.bytes.now RecordRule.InstructionConstant number }
{
    let raw = layout.record::<InstructionRecord>(number);
    !fields_of_kind(raw.kind).takes_constant() || layout.has(Section::Constants, raw.a)
}

fn text_of_constant_inside(layout: Layout<'_>, number: u32) -> bool
    ensures { result ≡ keeps_record layout.entry.bytes.now RecordRule.ConstantText number }
{
    let raw = layout.record::<ConstantRecord>(number);
    let text = Span {
        first: raw.a,
        count: raw.b,
    };
    !ConstantKind::Text.has_number(raw.kind) || is_inside(layout, Section::Text, text)
}

// Whether the instruction at this place of a code, if it jumps, jumps at most to the end of the code.
fn jump_inside(layout: Layout<'_>, number: u32, place: u32) -> bool
    ensures { result ≡ jumps_inside layout.entry.bytes.now number place }
{
    let code = layout.record::<CodeRecord>(number).instructions;
    let raw = layout.record_from::<InstructionRecord>(code.first, place);
    !fields_of_kind(raw.kind).takes_target() || raw.a <= code.count
}

// The first place of a code whose jump leaves the code.
pub fn first_jump_outside(layout: Layout<'_>, number: u32) -> Option<u32>
    ensures { result ≡ first_not_below (code layout.entry.bytes.now number).instructions.count (jumps_inside layout.entry.bytes.now number) }
{
    let count = layout.record::<CodeRecord>(number).instructions.count;
    first_not(count, |place| jump_inside(layout, number, place))
}

// As `jump_inside`, of another field; what looks for the first place is one, `first_not`.
fn is_load(layout: Layout<'_>, number: u32, place: u32) -> bool
    ensures { result ≡ loads_at layout.entry.bytes.now number place }
{
    let first = layout.record::<CodeRecord>(number).instructions.first;
    Kind::LoadBlocks.has_number(layout.record_from::<InstructionRecord>(first, place).kind)
}

// The first place of a code that holds LoadBlocks.
pub fn first_load(layout: Layout<'_>, number: u32) -> Option<u32>
    ensures { result ≡ first_not_below (code layout.entry.bytes.now number).instructions.count (λ k. not (loads_at layout.entry.bytes.now number k)) }
{
    let count = layout.record::<CodeRecord>(number).instructions.count;
    first_not(count, |place| !is_load(layout, number, place))
}

// Whether the record with this number keeps the rule. A rule is a value and no closure: a refusal names it, and it is
// compared and printed.
fn keeps(layout: Layout<'_>, rule: RecordRule, number: u32) -> bool
    ensures { result ≡ keeps_record layout.entry.bytes.now rule number }
{
    match rule {
        RecordRule::Size => size_allowed(layout.bytes.len()),
        RecordRule::TemplateLimit => layout.count(Section::Templates) <= MAX_TEMPLATES,
        RecordRule::SectionStart(section) => layout.offset(section) as u64 == due(layout, section),
        RecordRule::BundleEnd => finish(layout, Section::Text) == layout.bytes.len() as u64,
        RecordRule::TemplateName => is_inside(
            layout,
            Section::Text,
            layout.record::<TemplateRecord>(number).name,
        ),
        RecordRule::TemplateMain => layout.has(
            Section::Codes,
            layout.record::<TemplateRecord>(number).main,
        ),
        RecordRule::TemplateBlocks => is_inside(
            layout,
            Section::Blocks,
            layout.record::<TemplateRecord>(number).blocks,
        ),
        RecordRule::BlockName => is_inside(
            layout,
            Section::Text,
            layout.record::<BlockRecord>(number).name,
        ),
        RecordRule::BlockCode => layout.has(
            Section::Codes,
            layout.record::<BlockRecord>(number).code,
        ),
        RecordRule::CodeInstructions => is_inside(
            layout,
            Section::Instructions,
            layout.record::<CodeRecord>(number).instructions,
        ),
        RecordRule::InstructionText => text_of_instruction_inside(layout, number),
        RecordRule::InstructionConstant => constant_of_instruction_inside(layout, number),
        RecordRule::ConstantText => text_of_constant_inside(layout, number),
        RecordRule::JumpTargets => first_jump_outside(layout, number).is_none(),
        RecordRule::CodeLength => layout.record::<CodeRecord>(number).instructions.count
            <= MAX_INSTRUCTIONS,
        RecordRule::CodeFlag => layout.record::<CodeRecord>(number).flag <= 1,
        RecordRule::MainFlag => layout
            .record::<CodeRecord>(layout.record::<TemplateRecord>(number).main)
            .flag
            == 0,
        RecordRule::InstructionKind => fields_of_kind(
            layout.record::<InstructionRecord>(number).kind,
        ).is_allowed(),
        RecordRule::InstructionFields => {
            let raw = layout.record::<InstructionRecord>(number);
            fields_of_kind(raw.kind).fields_allowed(raw)
        }
        RecordRule::ConstantKind => ConstantKind::try_from(
            layout.record::<ConstantRecord>(number).kind,
        ).is_ok(),
        RecordRule::ConstantFields => constant_allowed(layout.record::<ConstantRecord>(number)),
        RecordRule::LoadOutsideMain => first_load(
            layout,
            layout.record::<BlockRecord>(number).code,
        ).is_none(),
        RecordRule::TemplateNames => is_new_template(layout, number),
        RecordRule::BlockNames => first_repeated_block(layout, number).is_none(),
    }
}

// Of how many records the rule speaks.
fn scope(layout: Layout<'_>, rule: RecordRule) -> u32
    ensures { result ≡ scope_record layout.entry.bytes.now rule }
{
    match rule.section() {
        Some(section) => layout.count(section),
        None => 1,
    }
}

// The first record that breaks the rule.
pub fn first_breach(layout: Layout<'_>, rule: RecordRule) -> Option<u32>
    ensures { result ≡ first_not_below (scope_record layout.entry.bytes.now rule) (keeps_record layout.entry.bytes.now rule) }
{
    first_not(scope(layout, rule), |number| keeps(layout, rule, number))
}
