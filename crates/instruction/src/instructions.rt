ghost use Rattle.std.specs.Prelude.{◌≡◌};
ghost use Rattle.instruction.specs.Kinds.{mode_of};
ghost use Rattle.instruction.specs.Seen.{mode_seen};

use crate::local_id::LocalId;
use crate::loop_flags::LoopFlags;

// What becomes of captured output: it is kept as a text, or dropped.
#[derive(Clone, Copy, PartialEq, Eq, Debug)]
pub enum CaptureMode {
    Capture,
    Discard,
}

impl From<u8> for CaptureMode {
    ghost from_gives = { λ small mode. mode_seen mode ≡ mode_of small };

    fn from(small: u8) -> CaptureMode {
        match small {
            0 => CaptureMode::Capture,
            _ => CaptureMode::Discard,
        }
    }
}

#[derive(Clone, Copy, PartialEq, Eq, Debug)]
pub enum Constant<'b> {
    Undefined,
    Bool(bool),
    Integer(i32),
    Text(&'b [u8]),
}

// The instructions of the machine. Names and texts are parts of the bundle.
#[derive(Clone, Copy, PartialEq, Eq, Debug)]
pub enum Instruction<'b> {
    EmitRaw(&'b [u8]),
    StoreLocal(&'b [u8]),
    Lookup(&'b [u8]),
    GetAttr(&'b [u8]),
    GetItem,
    LoadConst(Constant<'b>),
    BuildList(u16),
    Add,
    Sub,
    Mul,
    Div,
    IntDiv,
    Rem,
    Pow,
    Neg,
    Eq,
    Ne,
    Gt,
    Gte,
    Lt,
    Lte,
    Not,
    StringConcat,
    In,
    ApplyFilter(&'b [u8], u16, LocalId),
    PerformTest(&'b [u8], u16, LocalId),
    Emit,
    PushLoop(LoopFlags),
    PushWith,
    Iterate(u32),
    PushDidNotIterate,
    PopFrame,
    PopLoopFrame,
    Jump(u32),
    JumpIfFalse(u32),
    JumpIfFalseOrPop(u32),
    JumpIfTrueOrPop(u32),
    BeginCapture(CaptureMode),
    EndCapture,
    CallFunction(&'b [u8], u16),
    DupTop,
    DiscardTop,
    FastSuper,
    FastRecurse,
    Swap,
    CallBlock(&'b [u8]),
    LoadBlocks,
}
