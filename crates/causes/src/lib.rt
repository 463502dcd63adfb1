// Why a node would not open a bundle: the rules of the format, each with the number of its cause, and the search
// for the first one that is broken.
#![tactic(auto)]

ghost use Rattle.std.specs.Prelude.{◌≡◌, map};
ghost use Rattle.std.specs.Result.{result_err};
ghost use Rattle.rules.specs.declared.Rule.TheVariants.{Record};
ghost use Rattle.causes.specs.Causes.{first_defect as defect_in, defect, cause as format_cause, cause_of, reference_rules, name_rules};

pub mod cause;
pub mod defect;
mod headed;
mod names;
mod owners;

use defect::Defect;
use headed::Headed;
use layout::Layout;
use names::check_block_names;
use owners::check_owners;
use rules::{RecordRule, Rule, first_breach};

// What is named exists.
const EXISTENCE_RULES: [RecordRule; 9] = [
    RecordRule::TemplateName,
    RecordRule::TemplateMain,
    RecordRule::TemplateBlocks,
    RecordRule::BlockName,
    RecordRule::BlockCode,
    RecordRule::CodeInstructions,
    RecordRule::InstructionText,
    RecordRule::InstructionConstant,
    RecordRule::ConstantText,
];

const FIELD_RULES: [RecordRule; 8] = [
    RecordRule::CodeLength,
    RecordRule::CodeFlag,
    RecordRule::MainFlag,
    RecordRule::InstructionKind,
    RecordRule::InstructionFields,
    RecordRule::ConstantKind,
    RecordRule::ConstantFields,
    RecordRule::LoadOutsideMain,
];

// Looks for the first of these rules that is broken, and the first record that breaks it.
fn check_records(layout: Layout<'_>, rules: &[RecordRule]) -> Result<(), Defect>
    ensures { result_err result ≡ defect_in layout.entry.bytes.now (map Record rules.now) }
{
    for rule in rules {
        if let Some(record) = first_breach(layout, *rule) {
            return Err(Defect {
                rule: Rule::Record(*rule),
                record,
            });
        }
    }
    Ok(())
}

fn check_references(headed: Headed<'_>) -> Result<(), Defect>
    ensures { result_err result ≡ defect_in headed.entry.layout.bytes.now reference_rules }
{
    check_records(headed.layout, &EXISTENCE_RULES)?;
    check_owners(headed)?;
    check_records(headed.layout, &[RecordRule::JumpTargets])
}

fn check_names(layout: Layout<'_>) -> Result<(), Defect>
    ensures { result_err result ≡ defect_in layout.entry.bytes.now name_rules }
{
    check_records(layout, &[RecordRule::TemplateNames])?;
    check_block_names(layout)?;
    check_records(layout, &[RecordRule::BlockNames])
}

// The rules in the order of their causes.
fn check_all(layout: Layout<'_>) -> Result<(), Defect>
    ensures { result_err result ≡ defect layout.entry.bytes.now }
{
    let headed = Headed::new(layout)?;
    check_references(headed)?;
    check_records(layout, &FIELD_RULES)?;
    check_names(layout)
}

// Whether the bytes have none of the causes 1 to 4; else the first rule that is broken, with the first record that
// breaks it.
#[tactic(auto, using(crate::proofs::Search::lowest))]
pub fn check(bytes: &[u8]) -> Result<(), Defect>
    ensures value { result_err result ≡ defect bytes.now }
    ensures lowest { cause_of (result_err result) ≡ format_cause bytes.now }
{
    check_all(Layout { bytes })
}

// An `Option`, since it promises one; a caller that wants a `Result` has `check`.
// The same as of a search: the first defect, or none.
pub fn first_defect(bytes: &[u8]) -> Option<Defect>
    ensures value { result ≡ defect bytes.now }
    ensures lowest { cause_of result ≡ format_cause bytes.now }
{
    check(bytes).err()
}
