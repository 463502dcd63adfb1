// A bundle put together from its records and its text.
use std::test::Fail;

#[derive(Clone, Copy)]
pub struct Line {
    pub kind: u8,
    pub a: u32,
    pub b: u32,
    pub line: u8,
}

#[derive(Clone, Copy)]
pub struct Parts<'a> {
    pub templates: &'a [[u32; 5]],
    pub blocks: &'a [[u32; 3]],
    pub codes: &'a [[u32; 3]],
    pub instructions: &'a [Line],
    pub constants: &'a [[u32; 3]],
    pub text: &'a [u8],
}

fn put(bundle: &mut Vec<u8>, number: u32) -> Result<(), Fail> {
    bundle.extend_from_slice(&number.to_le_bytes())?;
    Ok(())
}

fn put_extent(bundle: &mut Vec<u8>, count: usize, size: u32, start: u32) -> Result<u32, Fail> {
    let count = u32::try_from(count)?;
    put(bundle, count)?;
    put(bundle, start)?;
    Ok(start.wrapping_add(count.wrapping_mul(size)))
}

fn put_header(bundle: &mut Vec<u8>, parts: &Parts<'_>) -> Result<(), Fail> {
    let start = put_extent(bundle, parts.templates.len(), 20, 48)?;
    let start = put_extent(bundle, parts.blocks.len(), 12, start)?;
    let start = put_extent(bundle, parts.codes.len(), 12, start)?;
    let start = put_extent(bundle, parts.instructions.len(), 16, start)?;
    let start = put_extent(bundle, parts.constants.len(), 12, start)?;
    put_extent(bundle, parts.text.len(), 1, start)?;
    Ok(())
}

fn put_records<const N: usize>(bundle: &mut Vec<u8>, records: &[[u32; N]]) -> Result<(), Fail> {
    for fields in records {
        for number in fields {
            put(bundle, *number)?;
        }
    }
    Ok(())
}

fn put_instructions(bundle: &mut Vec<u8>, lines: &[Line]) -> Result<(), Fail> {
    for line in lines {
        bundle.extend_from_slice(&[line.kind, 0, 0, 0])?;
        put(bundle, line.a)?;
        put(bundle, line.b)?;
        bundle.extend_from_slice(&[line.line, 0, 0, 0])?;
    }
    Ok(())
}

pub(super) fn assemble(rt: &HostRuntime, parts: &Parts<'_>) -> Result<Vec<u8>, Fail> {
    let mut bundle = Vec::new(rt.alloc());
    put_header(&mut bundle, parts)?;
    put_records(&mut bundle, parts.templates)?;
    put_records(&mut bundle, parts.blocks)?;
    put_records(&mut bundle, parts.codes)?;
    put_instructions(&mut bundle, parts.instructions)?;
    put_records(&mut bundle, parts.constants)?;
    bundle.extend_from_slice(parts.text)?;
    Ok(bundle)
}

// Three templates: base is "[", the block ports, "]", with the ports "80"; line extends base, with the ports "81";
// cell extends line, with the ports "82," and then those of line.
pub(super) fn base_line_cell(rt: &HostRuntime) -> Result<Vec<u8>, Fail> {
    assemble(
        rt,
        &Parts {
            templates: &[[0, 4, 0, 0, 1], [4, 4, 2, 1, 1], [8, 4, 4, 2, 1]],
            blocks: &[[12, 5, 1], [12, 5, 3], [12, 5, 5]],
            codes: &[
                [0, 3, 0],
                [3, 1, 0],
                [4, 3, 0],
                [7, 1, 0],
                [8, 4, 0],
                [12, 2, 0],
            ],
            instructions: &[
                Line {
                    kind: 0,
                    a: 17,
                    b: 1,
                    line: 1,
                },
                Line {
                    kind: 58,
                    a: 12,
                    b: 5,
                    line: 2,
                },
                Line {
                    kind: 0,
                    a: 18,
                    b: 1,
                    line: 3,
                },
                Line {
                    kind: 0,
                    a: 19,
                    b: 2,
                    line: 2,
                },
                Line {
                    kind: 7,
                    a: 0,
                    b: 0,
                    line: 1,
                },
                Line {
                    kind: 59,
                    a: 0,
                    b: 0,
                    line: 1,
                },
                Line {
                    kind: 58,
                    a: 12,
                    b: 5,
                    line: 2,
                },
                Line {
                    kind: 0,
                    a: 21,
                    b: 2,
                    line: 2,
                },
                Line {
                    kind: 7,
                    a: 1,
                    b: 0,
                    line: 1,
                },
                Line {
                    kind: 59,
                    a: 0,
                    b: 0,
                    line: 1,
                },
                Line {
                    kind: 0,
                    a: 26,
                    b: 4,
                    line: 2,
                },
                Line {
                    kind: 58,
                    a: 12,
                    b: 5,
                    line: 3,
                },
                Line {
                    kind: 0,
                    a: 23,
                    b: 3,
                    line: 3,
                },
                Line {
                    kind: 55,
                    a: 0,
                    b: 0,
                    line: 0,
                },
            ],
            constants: &[[4, 0, 4], [4, 4, 4]],
            text: b"baselinecellports[]808182,junk",
        },
    )
}
