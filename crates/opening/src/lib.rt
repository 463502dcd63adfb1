// Whether a bundle opens: it has none of the causes 1 to 4, and each of its codes stands.
#![tactic(auto)]

ghost use Rattle.std.specs.Prelude.{◌≡◌, ◌+◌, ◌<◌, ◌≤◌, length, take, MatchResult};
ghost use Rattle.layout.specs.Layout.{records};
ghost use Rattle.layout.specs.declared.section.Section.TheVariants.{Codes};
ghost use Rattle.standing.specs.Search.{Judged};
ghost use Rattle.bundle.specs.View.{code_view};
ghost use Rattle.opening.specs.Opening.{code_shapes, AllStand, IsBrokenCode, Lowest, OneLowestCause, UnreachedInstructionsDoNotMatter};
ghost use Rattle.opening.specs.Refusals.{number, Shown};

pub mod opened;
pub mod refusal;
pub mod shapes;

use arrayvec::ArrayVec;
use bundle::view::{Code, Examined};
use opened::Bundle;
use refusal::{BrokenCode, Refusal};
use shapes::shape_of;
use standing::MAX_INSTRUCTIONS;
use standing::shape::{Broken, Reason, Shape};
use standing::table::Table;

// Reads what the instructions of a code do, in the place of what the list had.
fn read_shapes(code: Code<'_>, shapes: &mut ArrayVec<Shape, MAX_INSTRUCTIONS>)
    requires { length (code_view code).steps ≤ 1024 }
    ensures { code.entry.number < records code.entry.layout.bytes.now Codes → shapes.new.items ≡ code_shapes code.entry.layout.bytes.now code.entry.number }
{
    shapes.clear();
    for place in 0..code.len() {
        if let Some(instruction) = code.get(place) {
            shapes.push(shape_of(instruction));
        }
    }
}

// As `check_code`, with a list that is lent for the shapes: to make one for each code takes longer than to check a short
// code.
#[tactic(auto, using(crate::proofs::Reading::shapes_long))]
fn check_with(
    code: Code<'_>,
    table: &mut Table,
    shapes: &mut ArrayVec<Shape, MAX_INSTRUCTIONS>,
) -> Result<(), Broken>
    ensures { code.entry.number < records code.entry.layout.bytes.now Codes → Judged (code_shapes code.entry.layout.bytes.now code.entry.number) (take (length (code_shapes code.entry.layout.bytes.now code.entry.number) + 1) table.new.entries) result }
{
    // A code of a bundle is never too long, but its field `number` is public and may be the number of none.
    if code.len() as usize > MAX_INSTRUCTIONS {
        return Err(Broken {
            place: 0,
            reason: Reason::TooLong,
        });
    }
    read_shapes(code, shapes);
    table.check(shapes.as_slice())
}

// Whether a code stands. If it does, the table has what the paths bring to each of its places.
pub fn check_code(code: Code<'_>, table: &mut Table) -> Result<(), Broken>
    ensures { code.entry.number < records code.entry.layout.bytes.now Codes → Judged (code_shapes code.entry.layout.bytes.now code.entry.number) (take (length (code_shapes code.entry.layout.bytes.now code.entry.number) + 1) table.new.entries) result }
{
    let mut shapes = ArrayVec::new();
    check_with(code, table, &mut shapes)
}

// Looks for the first code of the bundle that does not stand.
fn check_codes(bundle: Examined<'_>) -> Result<(), BrokenCode>
    ensures { MatchResult result (λ _. AllStand bundle.entry.layout.bytes.now) (λ x. IsBrokenCode bundle.entry.layout.bytes.now x.code) }
{
    let mut table = Table::new();
    let mut shapes = ArrayVec::new();
    for number in 0..bundle.header().codes.count {
        if let Some(code) = bundle.code(number) {
            // Tried as `map_err(..)?`: the proof of the loop did not close.
            if let Err(broken) = check_with(code, &mut table, &mut shapes) {
                return Err(BrokenCode {
                    code: number,
                    broken,
                });
            }
        }
    }
    Ok(())
}

// Why these bytes do not open as a bundle: the lowest of the causes 1 to 5, or none. It is an `Option`, since callers
// ask why, and want no bundle.
#[tactic(auto, using(crate::proofs::OneCause::one_cause))]
pub fn refusal_of(bytes: &[u8]) -> Option<Refusal>
    ensures lowest { Lowest bytes.now (number result) }
    ensures shown { Shown bytes.now result }
    ensures one { OneLowestCause bytes.now }
    ensures unreached { UnreachedInstructionsDoNotMatter bytes.now }
{
    Bundle::new(bytes).err()
}
