// A bundle that opens.
ghost use Rattle.std.specs.Prelude.{◌≡◌, IfErr, IfOk, MatchResult};
ghost use Rattle.bundle.specs.View.{bytes as bytes_of, refusal};
ghost use Rattle.causes.specs.Causes.{cause, defect};
ghost use Rattle.opening.specs.Opening.{AllStand, Lowest, empty_bundle};
ghost use Rattle.opening.specs.Refusals.{told, Shows};

use crate::check_codes;
use crate::refusal::Refusal;
use bundle::examine;
use bundle::view::Examined;
use causes::defect::Defect;

// It has none of the causes 1 to 5.
#[derive(Clone, Copy)]
pub struct Bundle<'b> {
    parts: Examined<'b>,
    // `parts` has this too; it stays as what a bundle is known by.
    ghost format: { cause parts.layout.bytes.now ≡ 0 },
    ghost standing: { ∥ AllStand parts.layout.bytes.now ∥₁ },
}

// The bundle of no templates: a header in which every section is empty.
const EMPTY: [u8; 48] = [
    0, 0, 0, 0, 48, 0, 0, 0, 0, 0, 0, 0, 48, 0, 0, 0, 0, 0, 0, 0, 48, 0, 0, 0, 0, 0, 0, 0, 48, 0,
    0, 0, 0, 0, 0, 0, 48, 0, 0, 0, 0, 0, 0, 0, 48, 0, 0, 0,
];

impl<'b> Bundle<'b> {
    // The bundle of these bytes, or why they do not open.
    pub fn new(bytes: &'b [u8]) -> Result<Bundle<'b>, Refusal>
        ensures lowest { Lowest bytes.now (told result) }
        ensures shown { IfErr result (λ x. Shows bytes.now x) }
        ensures opened { IfOk result (λ x. x.parts.layout.bytes.now ≡ bytes.now) }
    {
        let parts = examine(bytes)?;
        check_codes(parts)?;
        Ok(Bundle { parts })
    }

    // The check proves this by itself; `empty` rests on it.
    fn read_empty() -> Result<Examined<'b>, Defect>
        ensures refused { refusal result ≡ defect empty_bundle }
        ensures accepted { IfOk result (λ x. bytes_of x ≡ empty_bundle) }
    {
        examine(&EMPTY)
    }

    // The bundle that every record begins with.
    pub fn empty() -> Bundle<'b>
        ensures { result.parts.layout.bytes.now ≡ empty_bundle }
    {
        // No code of it has to be checked: it has none.
        match Bundle::read_empty() {
            Ok(parts) => Bundle { parts },
            Err(_) => unreachable(),
        }
    }

    // Opens these bytes in the place of what the bundle was. A refusal leaves it as it was.
    pub fn open(&mut self, bytes: &'b [u8]) -> Result<(), Refusal>
        ensures lowest { Lowest bytes.now (told result) }
        ensures shown { IfErr result (λ x. Shows bytes.now x) }
        ensures after { MatchResult result (λ _. self.new.parts.layout.bytes.now ≡ bytes.now) (λ _. self.new ≡ self.old) }
    {
        *self = Bundle::new(bytes)?;
        Ok(())
    }

    // Its templates, blocks, codes and constants.
    pub fn parts(&self) -> Examined<'b>
        ensures { result.layout.bytes.now ≡ self.now.parts.layout.bytes.now }
    {
        let parts = self.parts;
        parts
    }
}
