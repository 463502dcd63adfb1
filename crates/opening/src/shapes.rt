// What each instruction does to the operands and the open marks.
ghost use Rattle.std.specs.Prelude.{◌≡◌};
ghost use Rattle.instruction.specs.Seen.{instruction_seen};
ghost use Rattle.opening.specs.Shapes.{shape};

use instruction::instructions::Instruction;
use standing::shape::{MarkKind, Shape};

// A table: the definition has the same lines.
pub fn shape_of(instruction: Instruction<'_>) -> Shape
    ensures { result ≡ shape (instruction_seen instruction.entry) }
{
    match instruction {
        Instruction::EmitRaw(_) | Instruction::FastSuper | Instruction::CallBlock(_) =>
            Shape::Plain { takes: 0, gives: 0 },
        Instruction::Lookup(_) | Instruction::LoadConst(_) => Shape::Plain { takes: 0, gives: 1 },
        Instruction::StoreLocal(_) | Instruction::Emit => Shape::Plain { takes: 1, gives: 0 },
        Instruction::DiscardTop | Instruction::FastRecurse => Shape::Plain { takes: 1, gives: 0 },
        Instruction::GetAttr(_) | Instruction::Neg | Instruction::Not => Shape::Plain {
            takes: 1,
            gives: 1,
        },
        Instruction::DupTop => Shape::Plain { takes: 1, gives: 2 },
        Instruction::GetItem | Instruction::StringConcat | Instruction::In => Shape::Plain {
            takes: 2,
            gives: 1,
        },
        Instruction::Add
        | Instruction::Sub
        | Instruction::Mul
        | Instruction::Div
        | Instruction::IntDiv
        | Instruction::Rem
        | Instruction::Pow => Shape::Plain { takes: 2, gives: 1 },
        Instruction::Eq
        | Instruction::Ne
        | Instruction::Gt
        | Instruction::Gte
        | Instruction::Lt
        | Instruction::Lte => Shape::Plain { takes: 2, gives: 1 },
        Instruction::Swap => Shape::Plain { takes: 2, gives: 2 },
        Instruction::BuildList(takes)
        | Instruction::ApplyFilter(_, takes, _)
        | Instruction::PerformTest(_, takes, _)
        | Instruction::CallFunction(_, takes) => Shape::Plain { takes, gives: 1 },
        Instruction::PushLoop(flags) => Shape::Opens {
            kind: MarkKind::Loop {
                recursive: flags.is_recursive(),
            },
            takes: 1,
        },
        Instruction::PushWith => Shape::Opens {
            kind: MarkKind::Scope,
            takes: 0,
        },
        Instruction::BeginCapture(_) => Shape::Opens {
            kind: MarkKind::Capture,
            takes: 0,
        },
        Instruction::PushDidNotIterate => Shape::Inside,
        Instruction::Iterate(target) => Shape::Turn { target },
        Instruction::Jump(target) => Shape::Goto { target },
        Instruction::JumpIfFalse(target) => Shape::Branch { target, gives: 0 },
        Instruction::JumpIfFalseOrPop(target) | Instruction::JumpIfTrueOrPop(target) =>
            Shape::Branch { target, gives: 1 },
        Instruction::PopFrame => Shape::EndsScope,
        Instruction::EndCapture => Shape::EndsCapture,
        Instruction::PopLoopFrame => Shape::EndsLoop,
        Instruction::LoadBlocks => Shape::Load,
    }
}
