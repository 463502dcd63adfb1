// The instructions of a code, each with the operands and the open marks that paths bring to it.
use crate::instructions::Listed;
use bundle::view::Code;
use instruction::instructions::Instruction;
use opening::check_code;
use standing::MAX_MARKS;
use standing::table::Table;
use std::fmt;

#[derive(Clone, Copy)]
pub(super) struct ListedCode<'b>(pub(super) Code<'b>);

// No `Display`: one table is lent to all codes, since to make one takes longer than to list a short code.
impl ListedCode<'_> {
    pub(super) fn show<W: fmt::Write>(
        self,
        f: &mut fmt::Formatter<W>,
        table: &mut Table,
    ) -> fmt::Result {
        let code = self.0;
        let _ = check_code(code, table);
        for place in 0..code.len() {
            match table.entry(place) {
                Some(entry) => write!(f, "{place:>8} {:>3}  ", entry.height)?,
                None => write!(f, "{place:>8}   -  ")?,
            }
            if let Some(instruction) = code.get(place) {
                write!(f, "{}", Listed(instruction))?;
            }
            if let Some(line) = code.get_line(place) {
                write!(f, "   line {line}")?;
            }
            show_marks(f, code, place, table)?;
            writeln!(f)?;
        }
        Ok(())
    }
}

// The open marks at a place, the innermost first.
fn show_marks<W: fmt::Write>(
    f: &mut fmt::Formatter<W>,
    code: Code<'_>,
    place: u32,
    table: &Table,
) -> fmt::Result {
    let mut place = place;
    // No iterator: each mark is read from the one before, by the table.
    for _ in 0..MAX_MARKS {
        let Some(opened) = table.entry(place).and_then(|entry| entry.inner) else {
            break;
        };
        write!(f, "   in {} {opened}", mark_name(code.get(opened)))?;
        place = opened;
    }
    Ok(())
}

fn mark_name(instruction: Option<Instruction<'_>>) -> &'static str {
    match instruction {
        Some(Instruction::PushLoop(_)) => "loop",
        Some(Instruction::BeginCapture(_)) => "capture",
        _ => "with",
    }
}
