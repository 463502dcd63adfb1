// A bundle in readable form: its header, its templates with their blocks, and the instructions of each code. Before an
// instruction stand its place and how many operands there are, after it its line and the open marks; a dash stands where
// no path leads.
#![tactic(auto)]

ghost use Rattle.std.specs.Prelude.{◌≡◌, IfOk, length, string_bytes};
ghost use Rattle.std.specs.Io.{StartsWith};
ghost use Rattle.listing.specs.Size.{size_line};

mod code;
mod instructions;

use bundle::view::{Block, Examined, Template};
use code::ListedCode;
use console::escape::Escaped;
use layout::section::{Header, Section};
use standing::table::Table;
use std::alloc::{AllocError, Global};
use std::fmt;

// The header of a bundle and its templates.
#[derive(Clone, Copy)]
struct Parts<'b>(Examined<'b>);

// With how many bytes the room for a listing begins; it doubles each time that it is full.
const FIRST_ROOM: usize = 40;

fn size_line(heap: Global, size: usize) -> Result<String, AllocError>
    ensures { IfOk result (λ s. string_bytes s ≡ size_line size) }
{
    format!(in heap; "{size} bytes\n")
}

// A listing of the bundle. It begins with the line that says how many bytes the bundle has.
pub fn list(heap: Global, bundle: Examined<'_>) -> Result<String, AllocError>
    ensures { IfOk result (λ s. StartsWith (string_bytes s) (size_line (length bundle.entry.layout.bytes.now))) }
{
    let size = size_line(heap, bundle.bytes().len())?;
    // The rest can be long: it is not held twice, but moved up to make room for the line.
    let mut listing = String::with_capacity(heap, FIRST_ROOM)?;
    write!(listing, "{}", Parts(bundle))?;
    listing.insert_str(0, size.as_str())?;
    Ok(listing)
}

impl fmt::Display for Parts<'_> {
    fn fmt<W: fmt::Write>(&self, f: &mut fmt::Formatter<W>) -> fmt::Result {
        let bundle = self.0;
        let header = bundle.header();
        show_header(f, header)?;
        let mut table = Table::new();
        for number in 0..header.templates.count {
            if let Some(template) = bundle.template(number) {
                ListedTemplate { number, template }.show(f, &mut table)?;
            }
        }
        Ok(())
    }
}

fn show_header<W: fmt::Write>(f: &mut fmt::Formatter<W>, header: Header) -> fmt::Result {
    writeln!(f, "  section       count  offset")?;
    let extents = [
        (Section::Templates, header.templates),
        (Section::Blocks, header.blocks),
        (Section::Codes, header.codes),
        (Section::Instructions, header.instructions),
        (Section::Constants, header.constants),
        (Section::Text, header.text),
    ];
    for (section, extent) in extents {
        writeln!(
            f,
            "  {section:<12} {:>6}  {:>6}",
            extent.count, extent.offset
        )?;
    }
    Ok(())
}

#[derive(Clone, Copy)]
struct ListedTemplate<'b> {
    number: u32,
    template: Template<'b>,
}

impl<'b> ListedTemplate<'b> {
    // The block at this place among the blocks of the template.
    fn block(self, place: u32) -> Option<ListedBlock<'b>> {
        let block = self.template.block(place)?;
        let number = self.template.raw.blocks.first as u64 + place as u64;
        Some(ListedBlock { number, block })
    }

    fn show<W: fmt::Write>(self, f: &mut fmt::Formatter<W>, table: &mut Table) -> fmt::Result {
        let template = self.template;
        let main = template.main();
        writeln!(f)?;
        writeln!(
            f,
            "template {} \"{}\"",
            self.number,
            Escaped(template.name())
        )?;
        writeln!(f, "  main, code {}", main.number)?;
        ListedCode(main).show(f, table)?;
        for place in 0..template.block_count() {
            if let Some(block) = self.block(place) {
                block.show(f, table)?;
            }
        }
        Ok(())
    }
}

#[derive(Clone, Copy)]
struct ListedBlock<'b> {
    number: u64,
    block: Block<'b>,
}

impl ListedBlock<'_> {
    fn show<W: fmt::Write>(self, f: &mut fmt::Formatter<W>, table: &mut Table) -> fmt::Result {
        let ListedBlock { number, block } = self;
        let code = block.code();
        let required = if code.is_required_block() {
            ", required"
        } else {
            ""
        };
        writeln!(
            f,
            "  block {number} \"{}\", code {}{required}",
            Escaped(block.name()),
            code.number
        )?;
        ListedCode(code).show(f, table)
    }
}
