// Which fields of its record an instruction takes, and which values those that it may have.
ghost use Rattle.std.specs.Prelude.{◌≡◌};
ghost use Rattle.instruction.specs.Allowed.{uses, small_allowed, fields_allowed};

use crate::local_id::{MAX_LOCALS, NO_LOCAL};
use layout::records::InstructionRecord;

// The fields that a kind of instruction takes: none for one that is left out.
#[derive(Clone, Copy, PartialEq, Eq, Debug)]
pub enum Fields {
    None,
    Text,
    Count,
    TextAndCount,
    Cached,
    Constant,
    Target,
    LoopFlags,
    CaptureMode,
    LeftOut,
}

// The predicates differ in their sets of kinds alone, which is all that they say.
impl Fields {
    pub fn is_allowed(self) -> bool
        ensures { result ≡ (uses self).allowed }
    {
        self != Fields::LeftOut
    }

    pub fn takes_text(self) -> bool
        ensures { result ≡ (uses self).text }
    {
        matches!(self, Fields::Text | Fields::TextAndCount | Fields::Cached)
    }

    fn takes_count(self) -> bool
        ensures { result ≡ (uses self).count }
    {
        matches!(self, Fields::Count | Fields::TextAndCount | Fields::Cached)
    }

    pub fn takes_constant(self) -> bool
        ensures { result ≡ (uses self).constant }
    {
        matches!(self, Fields::Constant)
    }

    pub fn takes_target(self) -> bool
        ensures { result ≡ (uses self).target }
    {
        matches!(self, Fields::Target)
    }

    fn small_allowed(self, small: u8) -> bool
        ensures { result ≡ small_allowed self small }
    {
        match self {
            Fields::Cached => small < MAX_LOCALS || small == NO_LOCAL,
            // The bounds of the format, as the definition has them: any byte is a `LoopFlags` or a `CaptureMode`.
            Fields::LoopFlags => small <= 3,
            Fields::CaptureMode => small <= 1,
            Fields::LeftOut => true,
            _ => small == 0,
        }
    }

    // Each field that the instruction does not take is zero, and `small` is one that it may have.
    pub fn fields_allowed(self, raw: InstructionRecord) -> bool
        ensures { result ≡ fields_allowed self raw }
    {
        let small = self.small_allowed(raw.small);
        let argc = self.takes_count() || raw.argc == 0;
        let a = self.takes_text() || self.takes_constant() || self.takes_target() || raw.a == 0;
        let b = self.takes_text() || raw.b == 0;
        small && argc && a && b && raw.zero == 0
    }
}
