// Why a bundle does not open.
ghost use Rattle.std.specs.Prelude.{◌≡◌};
ghost use Rattle.causes.specs.Causes.{cause_number as number_of};
ghost use Rattle.opening.specs.declared.refusal.Refusal.TheVariants.{Format, Standing};
ghost use Rattle.opening.specs.Refusals.{cause_number};

use causes::cause::Cause;
use causes::defect::Defect;
use standing::shape::Broken;
use thiserror::Error;

// A code that does not stand, by its number, and the instruction that shows it.
#[derive(Clone, Copy, PartialEq, Eq, Debug, Error)]
#[error("code {code}: {broken}")]
pub struct BrokenCode {
    pub code: u32,
    pub broken: Broken,
}

#[derive(Clone, Copy, PartialEq, Eq, Debug)]
pub enum Refusal {
    // causes 1 to 4
    Format(Defect),
    // cause 5
    Standing(BrokenCode),
}

impl From<Defect> for Refusal {
    ghost from_gives = { λ found refusal. refusal ≡ Format found };

    fn from(found: Defect) -> Refusal {
        Refusal::Format(found)
    }
}

impl From<BrokenCode> for Refusal {
    ghost from_gives = { λ broken refusal. refusal ≡ Standing broken };

    fn from(broken: BrokenCode) -> Refusal {
        Refusal::Standing(broken)
    }
}

impl Refusal {
    pub fn cause(self) -> Cause
        ensures { number_of result ≡ cause_number self }
    {
        match self {
            Refusal::Format(defect) => defect.cause(),
            Refusal::Standing(_) => Cause::Standing,
        }
    }
}
