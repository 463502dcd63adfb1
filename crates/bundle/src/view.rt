// The parts of a bundle that has none of the causes 1 to 4. Each reads what it is asked for from the bytes,
// so that nothing is copied.
ghost use Rattle.std.specs.Prelude.{◌≡◌};
ghost use Rattle.causes.specs.Causes.{cause};

use layout::Layout;
use layout::records::{BlockRecord, TemplateRecord};

// The other structs have its fact and not itself: the contracts would have to go through it to the bytes.
// A bundle without the causes 1 to 4. Only `examine` makes one.
#[derive(Clone, Copy)]
pub struct Examined<'b> {
    pub(super) layout: Layout<'b>,
    ghost clean: { cause layout.bytes.now ≡ 0 },
}

#[derive(Clone, Copy)]
pub struct Template<'b> {
    pub(super) layout: Layout<'b>,
    pub raw: TemplateRecord,
    ghost clean: { cause layout.bytes.now ≡ 0 },
}

#[derive(Clone, Copy)]
pub struct Block<'b> {
    pub(super) layout: Layout<'b>,
    pub raw: BlockRecord,
    ghost clean: { cause layout.bytes.now ≡ 0 },
}

// A list of instructions: the main code of a template, or the code of a block.
#[derive(Clone, Copy)]
pub struct Code<'b> {
    pub(super) layout: Layout<'b>,
    // Anyone may write it, so that no ghost field says that it is the number of a code.
    pub number: u32,
    ghost clean: { cause layout.bytes.now ≡ 0 },
}
