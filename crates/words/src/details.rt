// Where exactly a rule is broken: the number, the name or the place at fault.
use console::escape::Escaped;
use layout::section::Section;
use std::fmt;

// How much of a name is shown.
const MAX_SHOWN: usize = 60;

#[derive(Clone, Copy)]
pub(super) enum Detail<'b> {
    Number(u64),
    Code(u32),
    Name(&'b [u8]),
    Start { section: Section, offset: u32 },
    Field { name: &'static str, value: u32 },
    Jump { place: u32, target: u32 },
    Load { code: u32, place: u32 },
}

impl fmt::Display for Detail<'_> {
    fn fmt<W: fmt::Write>(&self, f: &mut fmt::Formatter<W>) -> fmt::Result {
        match *self {
            Detail::Number(number) => write!(f, "{number}"),
            Detail::Code(number) => write!(f, "code {number}"),
            Detail::Name(name) => show_name(f, name),
            Detail::Start { section, offset } => write!(f, "{section} at byte {offset}"),
            Detail::Field { name, value } => write!(f, "{name} is {value}"),
            Detail::Jump { place, target } => write!(f, "that at place {place} goes to {target}"),
            Detail::Load { code, place } => write!(f, "at place {place} of code {code}"),
        }
    }
}

// A name, or the beginning of a long one.
fn show_name<W: fmt::Write>(f: &mut fmt::Formatter<W>, name: &[u8]) -> fmt::Result {
    if name.len() <= MAX_SHOWN {
        write!(f, "\"{}\"", Escaped(name))
    } else {
        let shown = Escaped(&name[0..MAX_SHOWN]);
        write!(f, "\"{shown}..\" ({} bytes)", name.len())
    }
}
