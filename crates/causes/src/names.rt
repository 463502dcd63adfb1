// At most 32 different block names in the whole bundle.
ghost use Rattle.std.specs.Prelude.{◌≡◌, [], ◌∷◌};
ghost use Rattle.std.specs.Result.{result_err};
ghost use Rattle.rules.specs.Rules.{block_name};
ghost use Rattle.rules.specs.declared.Rule.TheVariants.{BlockNameLimit};
ghost use Rattle.causes.specs.Causes.{first_defect as defect_in};
ghost use Rattle.causes.specs.Tally.{new_among};

use crate::defect::Defect;
use arrayvec::ArrayVec;
use layout::Layout;
use layout::records::BlockRecord;
use layout::section::Section;
use rules::{MAX_BLOCK_NAMES, Rule};

fn name_of_block<'b>(layout: Layout<'b>, number: u32) -> &'b [u8]
    ensures { result.now ≡ block_name layout.entry.bytes.now number }
{
    layout.text(layout.record::<BlockRecord>(number).name)
}

// Keeps the first block of each name, and stops at the first block whose name is one too many.
pub(crate) fn check_block_names(layout: Layout<'_>) -> Result<(), Defect>
    ensures { result_err result ≡ defect_in layout.entry.bytes.now (BlockNameLimit ∷ []) }
{
    let mut firsts: ArrayVec<u32, MAX_BLOCK_NAMES> = ArrayVec::new();
    for number in 0..layout.count(Section::Blocks) {
        if is_new_among(layout, firsts.as_slice(), number) {
            if firsts.is_full() {
                return Err(Defect {
                    rule: Rule::BlockNameLimit,
                    record: number,
                });
            }
            firsts.push(number);
        }
    }
    Ok(())
}

// Whether none of these blocks has the name of the block `number`.
fn is_new_among(layout: Layout<'_>, blocks: &[u32], number: u32) -> bool
    ensures { result ≡ new_among layout.entry.bytes.now blocks.now number }
{
    let name = name_of_block(layout, number);
    blocks
        .iter()
        .all(|block| name_of_block(layout, *block) != name)
}
