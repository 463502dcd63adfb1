// The words for a bundle that would not open: which rule is broken, which record breaks it, and what is wrong there.
#![tactic(auto)]

ghost use Rattle.std.specs.Prelude.{IfOk, string_bytes};
ghost use Rattle.opening.specs.Refusals.{cause_number};
ghost use Rattle.console.specs.Answer.{cause_line};
ghost use Rattle.words.specs.Begins.{Begins};

mod breach;
mod details;

use breach::Breach;
use layout::Layout;
use opening::refusal::Refusal;
use std::alloc::{AllocError, Global};

// What is said of a bundle that opens.
pub const OPENS: &str = "cause 0: the bundle opens";

// Why these bytes do not open: the number of the cause, and which record breaks which rule,
// or which instruction does not stand.
pub fn explain(heap: Global, bytes: &[u8], refusal: Refusal) -> Result<String, AllocError>
    ensures { IfOk result (λ s. Begins (cause_line (cause_number refusal)) (string_bytes s)) }
{
    let number = refusal.cause().number();
    let layout = Layout { bytes };
    let words = match refusal {
        Refusal::Format(defect) => Breach { layout, defect }.to_string(heap)?,
        Refusal::Standing(broken) => broken.to_string(heap)?,
    };
    format!(in heap; "cause {number}: {words}")
}

#[cfg(test)]
mod tests {
    use super::*;
    use causes::defect::Defect;
    use layout::section::Section;
    use opening::refusal::BrokenCode;
    use rules::{Owned, RecordRule, Rule};
    use standing::shape::{Broken, Reason};
    use std::test::Fail;

    #[test]
    fn explains(rt: HostRuntime) -> Result<(), Fail> {
        let heap = rt.alloc();
        let size = Defect {
            rule: Rule::Record(RecordRule::Size),
            record: 0,
        };
        let name = Defect {
            rule: Rule::Record(RecordRule::TemplateName),
            record: 3,
        };
        let words = explain(heap, &[0; 47], Refusal::Format(size))?;
        assert_eq!(rt;
            words.as_str(),
            "cause 1: header: the bundle does not have 48 to 65536 bytes: 47"
        );
        let words = explain(heap, &[0; 48], Refusal::Format(name))?;
        assert_eq!(rt;
            words.as_str(),
            "cause 2: template 3: its name lies outside the text section"
        );
        let broken = Broken {
            place: 7,
            reason: Reason::NoLoop,
        };
        let words = explain(
            heap,
            &[0; 48],
            Refusal::Standing(BrokenCode { code: 2, broken }),
        )?;
        assert_eq!(rt;
            words.as_str(),
            "cause 5: code 2: the instruction at place 7: no loop is open"
        );
        Ok(())
    }

    #[test]
    fn says_every_rule(rt: HostRuntime) -> Result<(), Fail> {
        let rules = [
            (
                Rule::Record(RecordRule::Size),
                "the bundle does not have 48 to 65536 bytes",
            ),
            (
                Rule::Record(RecordRule::TemplateLimit),
                "there are more than 64 templates",
            ),
            (
                Rule::Record(RecordRule::SectionStart(Section::Text)),
                "a section does not directly follow what stands before it",
            ),
            (
                Rule::Record(RecordRule::BundleEnd),
                "the text section does not end where the bundle ends",
            ),
            (
                Rule::Record(RecordRule::TemplateName),
                "its name lies outside the text section",
            ),
            (
                Rule::Record(RecordRule::BlockName),
                "its name lies outside the text section",
            ),
            (
                Rule::Record(RecordRule::TemplateMain),
                "its main code does not exist",
            ),
            (
                Rule::Record(RecordRule::TemplateBlocks),
                "its blocks lie outside the section of blocks",
            ),
            (
                Rule::Record(RecordRule::BlockCode),
                "its code does not exist",
            ),
            (
                Rule::Record(RecordRule::CodeInstructions),
                "its instructions lie outside the section of instructions",
            ),
            (
                Rule::Record(RecordRule::InstructionText),
                "its text lies outside the text section",
            ),
            (
                Rule::Record(RecordRule::ConstantText),
                "its text lies outside the text section",
            ),
            (
                Rule::Record(RecordRule::InstructionConstant),
                "its constant does not exist",
            ),
            (
                Rule::Record(RecordRule::JumpTargets),
                "a jump goes past its end",
            ),
            (
                Rule::Record(RecordRule::CodeLength),
                "it has more than 1024 instructions",
            ),
            (
                Rule::Record(RecordRule::CodeFlag),
                "its flag is neither 0 nor 1",
            ),
            (
                Rule::Record(RecordRule::MainFlag),
                "its main code has the flag of a required block",
            ),
            (
                Rule::Record(RecordRule::InstructionKind),
                "its kind is left out or unknown",
            ),
            (
                Rule::Record(RecordRule::InstructionFields),
                "its kind does not allow the value of a field",
            ),
            (
                Rule::Record(RecordRule::ConstantKind),
                "its kind is unknown",
            ),
            (
                Rule::Record(RecordRule::ConstantFields),
                "a field that its kind does not use is not zero",
            ),
            (
                Rule::Record(RecordRule::LoadOutsideMain),
                "LoadBlocks stands outside main code",
            ),
            (
                Rule::Record(RecordRule::TemplateNames),
                "an earlier template has its name",
            ),
            (
                Rule::Record(RecordRule::BlockNames),
                "two of its blocks have the same name",
            ),
            (
                Rule::Owner(Owned::Block),
                "it belongs to no template, or to several",
            ),
            (
                Rule::Owner(Owned::Code),
                "it belongs to no template or block, or to several",
            ),
            (
                Rule::Owner(Owned::Instruction),
                "it belongs to no code, or to several",
            ),
            (
                Rule::BlockNameLimit,
                "its name is one more than 32 different block names",
            ),
        ];
        for (rule, words) in rules {
            let said = rule.to_string(rt.alloc())?;
            assert_eq!(rt; said.as_str(), words);
        }
        Ok(())
    }

    #[test]
    fn says_every_reason(rt: HostRuntime) -> Result<(), Fail> {
        let reasons = [
            (
                Reason::TakesBelow,
                "it takes an operand that is not there, or that lies below the innermost open mark",
            ),
            (Reason::NoLoop, "no loop is open"),
            (
                Reason::WrongPartner,
                "the innermost open mark is not one that it closes",
            ),
            (
                Reason::ClosesHigher,
                "a recursive loop closes higher than it opened",
            ),
            (Reason::OpenCapture, "a capture is open"),
            (Reason::TooHigh, "it leaves more than 64 operands"),
            (Reason::TooManyMarks, "it leaves more than 16 open marks"),
            (
                Reason::PathsDiffer,
                "it goes on where another path brings other operands or open marks",
            ),
            (
                Reason::NotEmptyAtEnd,
                "the code ends after it with an operand or an open mark left",
            ),
            (Reason::Outside, "it goes on outside its code"),
            (Reason::TooLong, "the code has more than 1024 instructions"),
        ];
        for (reason, words) in reasons {
            let said = reason.to_string(rt.alloc())?;
            assert_eq!(rt; said.as_str(), words);
        }
        Ok(())
    }
}
