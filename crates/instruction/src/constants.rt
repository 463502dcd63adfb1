// The kinds of constant, and constants read from their records.
ghost use Rattle.std.specs.Prelude.{◌≡◌, ◌==◌};
ghost use Rattle.std.specs.Option.{option_map};
ghost use Rattle.instruction.specs.Kinds.{HasConstantKind, constant_number, constant_of};
ghost use Rattle.instruction.specs.Allowed.{constant_allowed};
ghost use Rattle.instruction.specs.Seen.{constant_seen};

use crate::instructions::Constant;
use layout::Layout;
use layout::records::{ConstantRecord, Span};

// A constant without what it holds, except that each truth value is a kind of its own.
#[derive(Clone, Copy, PartialEq, Eq, Debug)]
pub enum ConstantKind {
    Undefined,
    False,
    True,
    Integer,
    Text,
}

// A number that names no kind of constant.
#[derive(Clone, Copy, PartialEq, Eq, Debug)]
pub struct UnknownConstant;

// The numbers stand here alone, as those of `Kind` do.
impl TryFrom<u32> for ConstantKind {
    type Error = UnknownConstant;

    ghost try_from_gives = { HasConstantKind };

    fn try_from(number: u32) -> Result<Self, UnknownConstant> {
        match number {
            0 => Ok(ConstantKind::Undefined),
            1 => Ok(ConstantKind::False),
            2 => Ok(ConstantKind::True),
            3 => Ok(ConstantKind::Integer),
            4 => Ok(ConstantKind::Text),
            _ => Err(UnknownConstant),
        }
    }
}

impl ConstantKind {
    // Whether this number names this kind. (`Kind` has the same of a byte: a trait for two lines would say no more.)
    pub fn has_number(self, number: u32) -> bool
        ensures { result ≡ (number == constant_number self) }
    {
        ConstantKind::try_from(number) == Ok(self)
    }
}

// The fields that its kind does not take are zero.
pub fn constant_allowed(raw: ConstantRecord) -> bool
    ensures { result ≡ constant_allowed raw }
{
    match ConstantKind::try_from(raw.kind) {
        Ok(ConstantKind::Undefined | ConstantKind::False | ConstantKind::True) => raw.a == 0
            && raw.b == 0,
        Ok(ConstantKind::Integer) => raw.b == 0,
        Ok(ConstantKind::Text) | Err(UnknownConstant) => true,
    }
}

// The constant with this number, or none where its kind is unknown.
pub fn read_constant<'b>(layout: Layout<'b>, number: u32) -> Option<Constant<'b>>
    ensures { option_map constant_seen result ≡ constant_of layout.entry.bytes.now number }
{
    let record = layout.record::<ConstantRecord>(number);
    let kind = ConstantKind::try_from(record.kind).ok()?;
    Some(match kind {
        ConstantKind::Undefined => Constant::Undefined,
        ConstantKind::False => Constant::Bool(false),
        ConstantKind::True => Constant::Bool(true),
        ConstantKind::Integer => Constant::Integer(record.a.cast_signed()),
        ConstantKind::Text => Constant::Text(layout.text(Span {
            first: record.a,
            count: record.b,
        })),
    })
}
