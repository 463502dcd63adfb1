/// What instructions take and give.
#[derive(Clone, Copy, PartialEq, Eq, Debug, Default)]
pub enum Operand {
    /// A value of the host, by its code.
    Value(u32),
    /// A loop that runs, by the number of frames below its own.
    Loop(u8),
    /// What is left of a loop that has ended.
    // the default, since unused places of a stack hold some operand too
    #[default]
    Ended,
}

impl Operand {
    ghost use Rattle.std.specs.Prelude.{◌≡◌};
    ghost use Rattle.operands.specs.Stack.{code_of, forgotten as forgotten_of};

    /// The code of a value.
    pub(crate) fn code(self) -> Option<u32>
        ensures { result ≡ code_of self }
    {
        match self {
            Operand::Value(code) => Some(code),
            Operand::Loop(_) | Operand::Ended => None,
        }
    }

    /// What it is after the loop of this frame has ended.
    pub(crate) fn forgotten(self, frame: u8) -> Operand
        ensures { result ≡ forgotten_of frame self }
    {
        match self {
            Operand::Loop(below) => if below == frame { Operand::Ended } else { self },
            _ => self,
        }
    }
}
