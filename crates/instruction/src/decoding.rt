// Instructions decoded from their records.
ghost use Rattle.std.specs.Prelude.{◌≡◌};
ghost use Rattle.std.specs.Option.{option_map};
ghost use Rattle.instruction.specs.Kinds.{decoded};
ghost use Rattle.instruction.specs.Seen.{instruction_seen};

use crate::constants::read_constant;
use crate::instructions::{CaptureMode, Instruction};
use crate::kind::Kind;
use crate::local_id::LocalId;
use crate::loop_flags::LoopFlags;
use layout::Layout;
use layout::records::{InstructionRecord, Span};

// The instruction that a record of the bundle holds, or none where its kind is left out
// or its constant is of no kind.
pub fn decode<'b>(layout: Layout<'b>, raw: InstructionRecord) -> Option<Instruction<'b>>
    ensures { option_map instruction_seen result ≡ decoded layout.entry.bytes.now raw }
{
    let kind = Kind::try_from(raw.kind).ok()?;
    let text = layout.text(Span {
        first: raw.a,
        count: raw.b,
    });
    match kind {
        Kind::EmitRaw => Some(Instruction::EmitRaw(text)),
        Kind::StoreLocal => Some(Instruction::StoreLocal(text)),
        Kind::Lookup => Some(Instruction::Lookup(text)),
        Kind::GetAttr => Some(Instruction::GetAttr(text)),
        Kind::GetItem => Some(Instruction::GetItem),
        Kind::LoadConst => read_constant(layout, raw.a).map(Instruction::LoadConst),
        Kind::BuildList => Some(Instruction::BuildList(raw.argc)),
        Kind::Add => Some(Instruction::Add),
        Kind::Sub => Some(Instruction::Sub),
        Kind::Mul => Some(Instruction::Mul),
        Kind::Div => Some(Instruction::Div),
        Kind::IntDiv => Some(Instruction::IntDiv),
        Kind::Rem => Some(Instruction::Rem),
        Kind::Pow => Some(Instruction::Pow),
        Kind::Neg => Some(Instruction::Neg),
        Kind::Eq => Some(Instruction::Eq),
        Kind::Ne => Some(Instruction::Ne),
        Kind::Gt => Some(Instruction::Gt),
        Kind::Gte => Some(Instruction::Gte),
        Kind::Lt => Some(Instruction::Lt),
        Kind::Lte => Some(Instruction::Lte),
        Kind::Not => Some(Instruction::Not),
        Kind::StringConcat => Some(Instruction::StringConcat),
        Kind::In => Some(Instruction::In),
        Kind::ApplyFilter => Some(Instruction::ApplyFilter(
            text,
            raw.argc,
            LocalId::from(raw.small),
        )),
        Kind::PerformTest => Some(Instruction::PerformTest(
            text,
            raw.argc,
            LocalId::from(raw.small),
        )),
        Kind::Emit => Some(Instruction::Emit),
        Kind::PushLoop => Some(Instruction::PushLoop(LoopFlags::from(raw.small))),
        Kind::PushWith => Some(Instruction::PushWith),
        Kind::Iterate => Some(Instruction::Iterate(raw.a)),
        Kind::PushDidNotIterate => Some(Instruction::PushDidNotIterate),
        Kind::PopFrame => Some(Instruction::PopFrame),
        Kind::PopLoopFrame => Some(Instruction::PopLoopFrame),
        Kind::Jump => Some(Instruction::Jump(raw.a)),
        Kind::JumpIfFalse => Some(Instruction::JumpIfFalse(raw.a)),
        Kind::JumpIfFalseOrPop => Some(Instruction::JumpIfFalseOrPop(raw.a)),
        Kind::JumpIfTrueOrPop => Some(Instruction::JumpIfTrueOrPop(raw.a)),
        Kind::BeginCapture => Some(Instruction::BeginCapture(CaptureMode::from(raw.small))),
        Kind::EndCapture => Some(Instruction::EndCapture),
        Kind::CallFunction => Some(Instruction::CallFunction(text, raw.argc)),
        Kind::DupTop => Some(Instruction::DupTop),
        Kind::DiscardTop => Some(Instruction::DiscardTop),
        Kind::FastSuper => Some(Instruction::FastSuper),
        Kind::FastRecurse => Some(Instruction::FastRecurse),
        Kind::Swap => Some(Instruction::Swap),
        Kind::CallBlock => Some(Instruction::CallBlock(text)),
        Kind::LoadBlocks => Some(Instruction::LoadBlocks),
    }
}
