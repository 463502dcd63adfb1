// Which records a rule speaks of.
ghost use Rattle.std.specs.Prelude.{◌≡◌};
ghost use Rattle.rules.specs.Rules.{section_of, section_owned, section_of_rule};

use crate::{Owned, RecordRule, Rule};
use layout::section::Section;

impl RecordRule {
    // The section whose records it speaks of, or none where it speaks of the header.
    pub fn section(self) -> Option<Section>
        ensures { result ≡ section_of self }
    {
        match self {
            RecordRule::Size | RecordRule::TemplateLimit => None,
            RecordRule::SectionStart(_) | RecordRule::BundleEnd => None,
            RecordRule::TemplateName | RecordRule::TemplateMain => Some(Section::Templates),
            RecordRule::TemplateBlocks | RecordRule::MainFlag => Some(Section::Templates),
            RecordRule::TemplateNames | RecordRule::BlockNames => Some(Section::Templates),
            RecordRule::BlockName | RecordRule::BlockCode => Some(Section::Blocks),
            RecordRule::LoadOutsideMain => Some(Section::Blocks),
            RecordRule::CodeInstructions | RecordRule::JumpTargets => Some(Section::Codes),
            RecordRule::CodeLength | RecordRule::CodeFlag => Some(Section::Codes),
            RecordRule::InstructionText | RecordRule::InstructionConstant => Some(
                Section::Instructions,
            ),
            RecordRule::InstructionKind | RecordRule::InstructionFields => Some(
                Section::Instructions,
            ),
            RecordRule::ConstantText | RecordRule::ConstantKind => Some(Section::Constants),
            RecordRule::ConstantFields => Some(Section::Constants),
        }
    }
}

impl Owned {
    // The section that holds what is owned.
    pub fn section(self) -> Section
        ensures { result ≡ section_owned self }
    {
        match self {
            Owned::Block => Section::Blocks,
            Owned::Code => Section::Codes,
            Owned::Instruction => Section::Instructions,
        }
    }
}

impl Rule {
    // The section whose records it speaks of, or none where it speaks of the header.
    pub fn section(self) -> Option<Section>
        ensures { result ≡ section_of_rule self }
    {
        match self {
            Rule::Record(rule) => rule.section(),
            Rule::Owner(owned) => Some(owned.section()),
            Rule::BlockNameLimit => Some(Section::Blocks),
        }
    }
}
