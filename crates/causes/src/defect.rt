// A rule that is broken.
ghost use Rattle.std.specs.Prelude.{◌≡◌};
ghost use Rattle.causes.specs.Causes.{cause_number, number as number_of, number_record};

use crate::cause::Cause;
use rules::{RecordRule, Rule};

// The rule that is broken, and the number of the first record that breaks it (0 where the rule is about the header,
// which counts as one record).
#[derive(Clone, Copy, PartialEq, Eq, Debug)]
pub struct Defect {
    pub rule: Rule,
    pub record: u32,
}

impl Defect {
    pub fn cause(self) -> Cause
        ensures { cause_number result ≡ number_of self.rule }
    {
        match self.rule {
            Rule::Record(rule) => cause_of_record(rule),
            Rule::Owner(_) => Cause::Reference,
            Rule::BlockNameLimit => Cause::Name,
        }
    }
}

fn cause_of_record(rule: RecordRule) -> Cause
    ensures { cause_number result ≡ number_record rule }
{
    match rule {
        RecordRule::Size
        | RecordRule::TemplateLimit
        | RecordRule::SectionStart(_)
        | RecordRule::BundleEnd => Cause::Header,
        RecordRule::TemplateName | RecordRule::TemplateMain => Cause::Reference,
        RecordRule::TemplateBlocks | RecordRule::BlockName => Cause::Reference,
        RecordRule::BlockCode | RecordRule::CodeInstructions => Cause::Reference,
        RecordRule::InstructionText | RecordRule::InstructionConstant => Cause::Reference,
        RecordRule::ConstantText | RecordRule::JumpTargets => Cause::Reference,
        RecordRule::CodeLength | RecordRule::CodeFlag | RecordRule::MainFlag => Cause::Field,
        RecordRule::InstructionKind | RecordRule::InstructionFields => Cause::Field,
        RecordRule::ConstantKind | RecordRule::ConstantFields => Cause::Field,
        RecordRule::LoadOutsideMain => Cause::Field,
        RecordRule::TemplateNames | RecordRule::BlockNames => Cause::Name,
    }
}
