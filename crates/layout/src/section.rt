use std::fmt;

// The six sections of a bundle, in the order in which they follow the header.
#[derive(Clone, Copy, PartialEq, Eq, Debug)]
pub enum Section {
    Templates,
    Blocks,
    Codes,
    Instructions,
    Constants,
    Text,
}

// By hand, since it pads.
impl fmt::Display for Section {
    fn fmt<W: fmt::Write>(&self, f: &mut fmt::Formatter<W>) -> fmt::Result {
        f.pad(match self {
            Section::Templates => "templates",
            Section::Blocks => "blocks",
            Section::Codes => "codes",
            Section::Instructions => "instructions",
            Section::Constants => "constants",
            Section::Text => "text",
        })
    }
}

// How many records a section has (of text: bytes), and where it begins.
#[derive(Clone, Copy, PartialEq, Eq, Debug)]
pub struct Extent {
    pub count: u32,
    pub offset: u32,
}

#[derive(Clone, Copy, PartialEq, Eq, Debug)]
pub struct Header {
    pub templates: Extent,
    pub blocks: Extent,
    pub codes: Extent,
    pub instructions: Extent,
    pub constants: Extent,
    pub text: Extent,
}
