// The kinds of instruction, and which number in a record stands for which.
ghost use Rattle.std.specs.Prelude.{◌≡◌, ◌==◌};
ghost use Rattle.instruction.specs.Kinds.{HasKind, kind_number, fields as kind_fields};

use crate::fields::Fields;

// An instruction without its operands.
#[derive(Clone, Copy, PartialEq, Eq, Debug)]
pub enum Kind {
    EmitRaw,
    StoreLocal,
    Lookup,
    GetAttr,
    GetItem,
    LoadConst,
    BuildList,
    Add,
    Sub,
    Mul,
    Div,
    IntDiv,
    Rem,
    Pow,
    Neg,
    Eq,
    Ne,
    Gt,
    Gte,
    Lt,
    Lte,
    Not,
    StringConcat,
    In,
    ApplyFilter,
    PerformTest,
    Emit,
    PushLoop,
    PushWith,
    Iterate,
    PushDidNotIterate,
    PopFrame,
    PopLoopFrame,
    Jump,
    JumpIfFalse,
    JumpIfFalseOrPop,
    JumpIfTrueOrPop,
    BeginCapture,
    EndCapture,
    CallFunction,
    DupTop,
    DiscardTop,
    FastSuper,
    FastRecurse,
    Swap,
    CallBlock,
    LoadBlocks,
}

// A number that names no kind.
#[derive(Clone, Copy, PartialEq, Eq, Debug)]
pub struct LeftOut;

// The numbers stand here and not at the enum: there they would stand in both.
impl TryFrom<u8> for Kind {
    type Error = LeftOut;

    ghost try_from_gives = { HasKind };

    fn try_from(number: u8) -> Result<Self, LeftOut> {
        match number {
            0 => Ok(Kind::EmitRaw),
            1 => Ok(Kind::StoreLocal),
            2 => Ok(Kind::Lookup),
            3 => Ok(Kind::GetAttr),
            5 => Ok(Kind::GetItem),
            7 => Ok(Kind::LoadConst),
            11 => Ok(Kind::BuildList),
            15 => Ok(Kind::Add),
            16 => Ok(Kind::Sub),
            17 => Ok(Kind::Mul),
            18 => Ok(Kind::Div),
            19 => Ok(Kind::IntDiv),
            20 => Ok(Kind::Rem),
            21 => Ok(Kind::Pow),
            22 => Ok(Kind::Neg),
            23 => Ok(Kind::Eq),
            24 => Ok(Kind::Ne),
            25 => Ok(Kind::Gt),
            26 => Ok(Kind::Gte),
            27 => Ok(Kind::Lt),
            28 => Ok(Kind::Lte),
            29 => Ok(Kind::Not),
            30 => Ok(Kind::StringConcat),
            31 => Ok(Kind::In),
            33 => Ok(Kind::ApplyFilter),
            34 => Ok(Kind::PerformTest),
            35 => Ok(Kind::Emit),
            36 => Ok(Kind::PushLoop),
            37 => Ok(Kind::PushWith),
            38 => Ok(Kind::Iterate),
            39 => Ok(Kind::PushDidNotIterate),
            40 => Ok(Kind::PopFrame),
            41 => Ok(Kind::PopLoopFrame),
            42 => Ok(Kind::Jump),
            43 => Ok(Kind::JumpIfFalse),
            44 => Ok(Kind::JumpIfFalseOrPop),
            45 => Ok(Kind::JumpIfTrueOrPop),
            48 => Ok(Kind::BeginCapture),
            49 => Ok(Kind::EndCapture),
            50 => Ok(Kind::CallFunction),
            53 => Ok(Kind::DupTop),
            54 => Ok(Kind::DiscardTop),
            55 => Ok(Kind::FastSuper),
            56 => Ok(Kind::FastRecurse),
            57 => Ok(Kind::Swap),
            58 => Ok(Kind::CallBlock),
            59 => Ok(Kind::LoadBlocks),
            _ => Err(LeftOut),
        }
    }
}

impl Kind {
    // Whether this number names this kind.
    #[tactic(auto, using(crate::proofs::Numbers::same_kind, crate::proofs::Numbers::allowed_number))]
    pub fn has_number(self, number: u8) -> bool
        ensures { result ≡ (number == kind_number self) }
    {
        Kind::try_from(number) == Ok(self)
    }

    // Which fields of its record an instruction of this kind takes.
    pub fn fields(self) -> Fields
        ensures { result ≡ kind_fields (kind_number self) }
    {
        match self {
            Kind::EmitRaw | Kind::StoreLocal | Kind::Lookup | Kind::GetAttr | Kind::CallBlock =>
                Fields::Text,
            Kind::LoadConst => Fields::Constant,
            Kind::BuildList => Fields::Count,
            Kind::ApplyFilter | Kind::PerformTest => Fields::Cached,
            Kind::PushLoop => Fields::LoopFlags,
            Kind::Iterate
            | Kind::Jump
            | Kind::JumpIfFalse
            | Kind::JumpIfFalseOrPop
            | Kind::JumpIfTrueOrPop => Fields::Target,
            Kind::BeginCapture => Fields::CaptureMode,
            Kind::CallFunction => Fields::TextAndCount,
            _ => Fields::None,
        }
    }
}

// Which fields the kind with this number takes.
pub fn fields_of_kind(kind: u8) -> Fields
    ensures { result ≡ kind_fields kind }
{
    match Kind::try_from(kind) {
        Ok(kind) => kind.fields(),
        Err(LeftOut) => Fields::LeftOut,
    }
}
