// An instruction in readable form: its name and its operands.
use console::escape::Escaped;
use instruction::instructions::{Constant, Instruction};
use instruction::local_id::LocalId;
use instruction::loop_flags::LoopFlags;
use std::fmt;

#[derive(Clone, Copy)]
pub struct Listed<'b>(pub Instruction<'b>);

impl fmt::Display for Listed<'_> {
    fn fmt<W: fmt::Write>(&self, f: &mut fmt::Formatter<W>) -> fmt::Result {
        f.write_str(name(self.0))?;
        show_operands(f, self.0)
    }
}

// A text for each case: `Kind` cannot print them without the same `match` from instructions to kinds.
fn name(instruction: Instruction<'_>) -> &'static str {
    match instruction {
        Instruction::EmitRaw(_) => "EmitRaw",
        Instruction::StoreLocal(_) => "StoreLocal",
        Instruction::Lookup(_) => "Lookup",
        Instruction::GetAttr(_) => "GetAttr",
        Instruction::GetItem => "GetItem",
        Instruction::LoadConst(_) => "LoadConst",
        Instruction::BuildList(_) => "BuildList",
        Instruction::Add => "Add",
        Instruction::Sub => "Sub",
        Instruction::Mul => "Mul",
        Instruction::Div => "Div",
        Instruction::IntDiv => "IntDiv",
        Instruction::Rem => "Rem",
        Instruction::Pow => "Pow",
        Instruction::Neg => "Neg",
        Instruction::Eq => "Eq",
        Instruction::Ne => "Ne",
        Instruction::Gt => "Gt",
        Instruction::Gte => "Gte",
        Instruction::Lt => "Lt",
        Instruction::Lte => "Lte",
        Instruction::Not => "Not",
        Instruction::StringConcat => "StringConcat",
        Instruction::In => "In",
        Instruction::ApplyFilter(_, _, _) => "ApplyFilter",
        Instruction::PerformTest(_, _, _) => "PerformTest",
        Instruction::Emit => "Emit",
        Instruction::PushLoop(_) => "PushLoop",
        Instruction::PushWith => "PushWith",
        Instruction::Iterate(_) => "Iterate",
        Instruction::PushDidNotIterate => "PushDidNotIterate",
        Instruction::PopFrame => "PopFrame",
        Instruction::PopLoopFrame => "PopLoopFrame",
        Instruction::Jump(_) => "Jump",
        Instruction::JumpIfFalse(_) => "JumpIfFalse",
        Instruction::JumpIfFalseOrPop(_) => "JumpIfFalseOrPop",
        Instruction::JumpIfTrueOrPop(_) => "JumpIfTrueOrPop",
        Instruction::BeginCapture(_) => "BeginCapture",
        Instruction::EndCapture => "EndCapture",
        Instruction::CallFunction(_, _) => "CallFunction",
        Instruction::DupTop => "DupTop",
        Instruction::DiscardTop => "DiscardTop",
        Instruction::FastSuper => "FastSuper",
        Instruction::FastRecurse => "FastRecurse",
        Instruction::Swap => "Swap",
        Instruction::CallBlock(_) => "CallBlock",
        Instruction::LoadBlocks => "LoadBlocks",
    }
}

fn show_operands<W: fmt::Write>(
    f: &mut fmt::Formatter<W>,
    instruction: Instruction<'_>,
) -> fmt::Result {
    match instruction {
        Instruction::EmitRaw(text)
        | Instruction::StoreLocal(text)
        | Instruction::Lookup(text)
        | Instruction::GetAttr(text)
        | Instruction::CallBlock(text) => show_text(f, text),
        Instruction::LoadConst(constant) => show_constant(f, constant),
        Instruction::BuildList(count) => write!(f, " {count}"),
        Instruction::ApplyFilter(name, count, local)
        | Instruction::PerformTest(name, count, local) => {
            show_call(f, name, count)?;
            show_slot(f, local)
        }
        Instruction::CallFunction(name, count) => show_call(f, name, count),
        Instruction::PushLoop(flags) => f.write_str(flag_words(flags)),
        Instruction::Iterate(target)
        | Instruction::Jump(target)
        | Instruction::JumpIfFalse(target)
        | Instruction::JumpIfFalseOrPop(target)
        | Instruction::JumpIfTrueOrPop(target) => write!(f, " -> {target}"),
        Instruction::BeginCapture(mode) => write!(f, " {mode:?}"),
        _ => Ok(()),
    }
}

fn show_text<W: fmt::Write>(f: &mut fmt::Formatter<W>, text: &[u8]) -> fmt::Result {
    write!(f, " \"{}\"", Escaped(text))
}

fn show_constant<W: fmt::Write>(f: &mut fmt::Formatter<W>, constant: Constant<'_>) -> fmt::Result {
    match constant {
        Constant::Undefined => f.write_str(" undefined"),
        Constant::Bool(value) => write!(f, " {value}"),
        Constant::Integer(value) => write!(f, " {value}"),
        Constant::Text(text) => show_text(f, text),
    }
}

fn show_call<W: fmt::Write>(f: &mut fmt::Formatter<W>, name: &[u8], count: u16) -> fmt::Result {
    write!(f, " \"{}\" arguments {count}", Escaped(name))
}

fn show_slot<W: fmt::Write>(f: &mut fmt::Formatter<W>, local: LocalId) -> fmt::Result {
    match local.slot() {
        Some(slot) => write!(f, " slot {slot}"),
        None => f.write_str(" no slot"),
    }
}

fn flag_words(flags: LoopFlags) -> &'static str {
    match (flags.has_loop_var(), flags.is_recursive()) {
        (false, false) => " flags 0",
        (true, false) => " flags 1 (loop variable)",
        (false, true) => " flags 2 (recursive)",
        (true, true) => " flags 3 (loop variable, recursive)",
    }
}
