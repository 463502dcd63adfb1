ghost use Rattle.std.specs.Prelude.{◌≡◌};
ghost use Rattle.std.specs.Result.{result_err};
ghost use Rattle.standing.specs.Standing.{unless, is_capture, is_loop};
ghost use Rattle.standing.specs.Paths.{shape_at};
ghost use Rattle.standing.specs.Entries.{opens_mark};
ghost use Rattle.standing.specs.declared.shape.Shape.TheVariants.{Plain};

use crate::{MAX_HEIGHT, MAX_INSTRUCTIONS, MAX_MARKS};
use thiserror::Error;

// What opens a mark: a `with`, a capture, or a loop, which is recursive or not.
#[derive(Clone, Copy, PartialEq, Eq, Debug)]
pub enum MarkKind {
    Scope,
    Capture,
    Loop { recursive: bool },
}

impl MarkKind {
    pub(crate) fn is_loop(self) -> bool
        ensures { result ≡ is_loop self }
    {
        matches!(self, MarkKind::Loop { .. })
    }

    pub(crate) fn is_capture(self) -> bool
        ensures { result ≡ is_capture self }
    {
        matches!(self, MarkKind::Capture)
    }
}

// An open mark: the place of the instruction that opened it, what it is, and the operand height at which it opened.
#[derive(Clone, Copy, PartialEq, Eq, Debug)]
pub struct Mark {
    pub place: u32,
    pub kind: MarkKind,
    pub height: u32,
}

// What an instruction does to the operand height and the open marks, and where control goes on.
#[derive(Clone, Copy, PartialEq, Eq, Debug)]
pub enum Shape {
    // takes so many operands, and gives so many
    Plain { takes: u16, gives: u16 },
    // wants an open loop, and gives one
    Inside,
    // wants an open loop; gives one, or goes to the target
    Turn { target: u32 },
    Goto { target: u32 },
    // takes one and goes on, or goes to the target and gives so many
    Branch { target: u32, gives: u16 },
    // takes so many, and then opens a mark
    Opens { kind: MarkKind, takes: u16 },
    EndsScope,
    // gives one
    EndsCapture,
    EndsLoop,
    // takes one, and wants no open capture
    Load,
}

impl Default for Shape {
    ghost is_default = { λ shape. shape ≡ Plain 0 0 };

    fn default() -> Shape {
        Shape::Plain { takes: 0, gives: 0 }
    }
}

impl Shape {
    // The mark that the instruction opens at a height.
    pub(crate) fn opens(self, place: u32, height: u32) -> Option<Mark>
        ensures { result ≡ opens_mark place self height }
    {
        match self {
            Shape::Opens { kind, takes } => Some(Mark {
                place,
                kind,
                height: height.saturating_sub(takes as u32),
            }),
            _ => None,
        }
    }
}

// The shape of the instruction at a place of the code.
pub(crate) fn shape_at(code: &[Shape], place: u32) -> Shape
    ensures { result ≡ shape_at code.now place }
{
    code.get(place as usize).copied().unwrap_or_default()
}

// Why an instruction cannot stand where a path brings it, or why what it leaves cannot stand.
#[derive(Clone, Copy, PartialEq, Eq, Debug, Error)]
pub enum Reason {
    #[error("it takes an operand that is not there, or that lies below the innermost open mark")]
    TakesBelow,
    #[error("no loop is open")]
    NoLoop,
    #[error("the innermost open mark is not one that it closes")]
    WrongPartner,
    #[error("a recursive loop closes higher than it opened")]
    ClosesHigher,
    #[error("a capture is open")]
    OpenCapture,
    #[error("it leaves more than {} operands", MAX_HEIGHT)]
    TooHigh,
    #[error("it leaves more than {} open marks", MAX_MARKS)]
    TooManyMarks,
    #[error("it goes on where another path brings other operands or open marks")]
    PathsDiffer,
    #[error("the code ends after it with an operand or an open mark left")]
    NotEmptyAtEnd,
    #[error("it goes on outside its code")]
    Outside,
    #[error("the code has more than {} instructions", MAX_INSTRUCTIONS)]
    TooLong,
}

pub(crate) fn ensure(holds: bool, reason: Reason) -> Result<(), Reason>
    ensures { result_err result ≡ unless holds reason }
{
    if holds { Ok(()) } else { Err(reason) }
}

// An instruction whose standing is broken, by its place in the code.
#[derive(Clone, Copy, PartialEq, Eq, Debug, Error)]
#[error("the instruction at place {place}: {reason}")]
pub struct Broken {
    pub place: u32,
    pub reason: Reason,
}

#[cfg(test)]
mod tests {
    use super::*;
    use std::test::Fail;

    #[test]
    fn says_what_is_broken(rt: HostRuntime) -> Result<(), Fail> {
        let broken = Broken {
            place: 7,
            reason: Reason::NoLoop,
        };
        let words = format!(in rt.alloc(); "{broken}")?;
        assert_eq!(rt;
            words.as_str(),
            "the instruction at place 7: no loop is open"
        );
        Ok(())
    }
}
