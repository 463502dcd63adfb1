// The rules of the format: what each record of a bundle has to keep.
#![tactic(auto)]

mod names;
mod records;
mod scope;

use layout::section::Section;
pub use names::first_repeated_block;
use records::{MAX_INSTRUCTIONS, MAX_SIZE, MAX_TEMPLATES, MIN_SIZE};
pub use records::{MAX_BLOCK_NAMES, first_breach, first_jump_outside, first_load};
use thiserror::Error;

// What each record of one kind has to keep, on its own or against those before it, with what is wrong where it does not.
#[derive(Clone, Copy, PartialEq, Eq, Debug, Error)]
pub enum RecordRule {
    #[error("the bundle does not have {} to {} bytes", MIN_SIZE, MAX_SIZE)]
    Size,
    #[error("there are more than {} templates", MAX_TEMPLATES)]
    TemplateLimit,
    #[error("a section does not directly follow what stands before it")]
    SectionStart(Section),
    #[error("the text section does not end where the bundle ends")]
    BundleEnd,
    #[error("its name lies outside the text section")]
    TemplateName,
    #[error("its main code does not exist")]
    TemplateMain,
    #[error("its blocks lie outside the section of blocks")]
    TemplateBlocks,
    #[error("its name lies outside the text section")]
    BlockName,
    #[error("its code does not exist")]
    BlockCode,
    #[error("its instructions lie outside the section of instructions")]
    CodeInstructions,
    #[error("its text lies outside the text section")]
    InstructionText,
    #[error("its constant does not exist")]
    InstructionConstant,
    #[error("its text lies outside the text section")]
    ConstantText,
    #[error("a jump goes past its end")]
    JumpTargets,
    #[error("it has more than {} instructions", MAX_INSTRUCTIONS)]
    CodeLength,
    #[error("its flag is neither 0 nor 1")]
    CodeFlag,
    #[error("its main code has the flag of a required block")]
    MainFlag,
    #[error("its kind is left out or unknown")]
    InstructionKind,
    #[error("its kind does not allow the value of a field")]
    InstructionFields,
    #[error("its kind is unknown")]
    ConstantKind,
    #[error("a field that its kind does not use is not zero")]
    ConstantFields,
    #[error("LoadBlocks stands outside main code")]
    LoadOutsideMain,
    #[error("an earlier template has its name")]
    TemplateNames,
    #[error("two of its blocks have the same name")]
    BlockNames,
}

// What is named by records of another kind: blocks by templates, codes by templates and blocks, instructions by codes.
#[derive(Clone, Copy, PartialEq, Eq, Debug)]
pub enum Owned {
    Block,
    Code,
    Instruction,
}

#[derive(Clone, Copy, PartialEq, Eq, Debug, Error)]
pub enum Rule {
    #[error(transparent)]
    Record(RecordRule),
    // each record is named exactly once
    #[error("it belongs to no {}, or to several", .0.owners())]
    Owner(Owned),
    #[error("its name is one more than {} different block names", MAX_BLOCK_NAMES)]
    BlockNameLimit,
}

impl Owned {
    // The records that name it, in words.
    fn owners(self) -> &'static str {
        match self {
            Owned::Block => "template",
            Owned::Code => "template or block",
            Owned::Instruction => "code",
        }
    }
}
