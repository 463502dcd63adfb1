// The records of the sections as they stand in the bytes: numbers, not yet known to mean anything.

// So many records of a section, one after another; of the text section, so many bytes.
#[derive(Clone, Copy, PartialEq, Eq, Debug)]
pub struct Span {
    pub first: u32,
    pub count: u32,
}

#[derive(Clone, Copy, PartialEq, Eq, Debug)]
pub struct TemplateRecord {
    pub name: Span,
    pub main: u32,
    pub blocks: Span,
}

#[derive(Clone, Copy, PartialEq, Eq, Debug)]
pub struct BlockRecord {
    pub name: Span,
    pub code: u32,
}

#[derive(Clone, Copy, PartialEq, Eq, Debug)]
pub struct CodeRecord {
    pub instructions: Span,
    // As it stands in the bytes: the reader of codes answers a `bool`.
    pub flag: u32,
}

#[derive(Clone, Copy, PartialEq, Eq, Debug)]
pub struct InstructionRecord {
    pub kind: u8,
    pub small: u8,
    pub argc: u16,
    pub a: u32,
    pub b: u32,
    // As it stands in the bytes, 0 where it is missing: the reader of lines answers an `Option`.
    pub line: u16,
    pub zero: u16,
}

#[derive(Clone, Copy, PartialEq, Eq, Debug)]
pub struct ConstantRecord {
    pub kind: u32,
    pub a: u32,
    pub b: u32,
}
