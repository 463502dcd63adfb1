use crate::assembled::{Line, Parts, assemble, base_line_cell};
use bundle::examine;
use bundle::view::Code;
use instruction::instructions::{Constant, Instruction};
use opening::opened::Bundle;
use opening::refusal_of;
use std::process::Abort;
use std::test::Fail;

fn cause(bytes: &[u8]) -> u8 {
    refusal_of(bytes).map_or(0, |refusal| refusal.cause().number())
}

fn is_text(code: Code<'_>, place: u32, text: &[u8]) -> bool {
    match code.get(place) {
        Some(Instruction::EmitRaw(found)) => found == text,
        _ => false,
    }
}

#[test]
fn reads_base_line_and_cell(rt: HostRuntime) -> Result<(), Fail> {
    let bytes = base_line_cell(&rt)?;
    assert_eq!(rt; bytes.len(), 494);
    let bundle = match examine(&bytes) {
        Ok(bundle) => bundle,
        Err(_) => return Err(Fail::new("refused")),
    };
    let cell = bundle.template(2).ok_or("no third template")?;
    assert!(rt; cell.name() == b"cell".as_slice());
    assert_eq!(rt; cell.main().len(), 4);
    assert!(rt; is_text(cell.main(), 2, b"junk"));
    match cell.main().get(0) {
        Some(Instruction::LoadConst(Constant::Text(name))) => assert!(rt;
            name == b"line".as_slice()
        ),
        _ => return Err(Fail::new("not the load of a text")),
    }
    let ports = cell.block(0).ok_or("no block")?;
    assert!(rt; ports.name() == b"ports".as_slice());
    assert!(rt; is_text(ports.code(), 0, b"82,"));
    assert!(rt; matches!(ports.code().get(1), Some(Instruction::FastSuper)));
    assert!(rt; ports.code().get(2).is_none());
    assert_eq!(rt; ports.code().get_line(0), Some(3));
    assert_eq!(rt; ports.code().get_line(1), None);
    assert!(rt; bundle.template(3).is_none());
    Ok(())
}

// One byte changed, and the cause that this has: the rows without a cause stand beside those that have one.
const CHANGES: [(usize, u8, u8); 24] = [
    (0, 4, 1),
    (4, 49, 1),
    (56, 1, 2),
    (56, 6, 2),
    (64, 2, 2),
    (52, 26, 0),
    (52, 31, 2),
    (284, 1, 0),
    (284, 2, 2),
    (164, 1, 0),
    (164, 2, 3),
    (152, 1, 3),
    (216, 58, 0),
    (216, 2, 5),
    (216, 4, 3),
    (217, 1, 3),
    (228, 255, 0),
    (230, 1, 3),
    (264, 59, 3),
    (88, 5, 0),
    (88, 4, 4),
    (424, 56, 5),
    (424, 54, 5),
    (424, 37, 5),
];

#[test]
fn answers_each_cause_beside_a_neighbour(rt: HostRuntime) -> Result<(), Fail> {
    let whole = base_line_cell(&rt)?;
    assert_eq!(rt; cause(&whole), 0);
    for (at, value, expected) in CHANGES {
        let mut changed = whole.clone()?;
        if let Some(byte) = changed.get_mut(at) {
            *byte = value;
        }
        assert_eq!(rt; cause(&changed), expected, "at one of the changes");
    }
    Ok(())
}

fn text_only(rt: &HostRuntime, length: usize) -> Result<Vec<u8>, Fail> {
    let text = vec![in rt.alloc(); 0; length]?;
    assemble(
        rt,
        &Parts {
            templates: &[],
            blocks: &[],
            codes: &[],
            instructions: &[],
            constants: &[],
            text: &text,
        },
    )
}

#[test]
fn opens_sizes_from_48_to_65536(rt: HostRuntime) -> Result<(), Fail> {
    let smallest = text_only(&rt, 0)?;
    assert_eq!(rt; smallest.len(), 48);
    assert_eq!(rt; cause(&smallest), 0);
    assert_eq!(rt; cause(&smallest[0..47]), 1);
    assert_eq!(rt; cause(&text_only(&rt, 65488)?), 0);
    assert_eq!(rt; cause(&text_only(&rt, 65489)?), 1);
    Ok(())
}

const EMPTY_TEXT: Line = Line {
    kind: 0,
    a: 0,
    b: 0,
    line: 0,
};

// One template, whose main code has this many instructions.
fn one_code(rt: &HostRuntime, length: u32) -> Result<Vec<u8>, Fail> {
    let lines = vec![in rt.alloc(); EMPTY_TEXT; length as usize]?;
    assemble(
        rt,
        &Parts {
            templates: &[[0; 5]],
            blocks: &[],
            codes: &[[0, length, 0]],
            instructions: &lines,
            constants: &[],
            text: &[],
        },
    )
}

#[test]
fn opens_codes_of_at_most_1024_instructions(rt: HostRuntime) -> Result<(), Fail> {
    assert_eq!(rt; cause(&one_code(&rt, 0)?), 0);
    assert_eq!(rt; cause(&one_code(&rt, 1024)?), 0);
    assert_eq!(rt; cause(&one_code(&rt, 1025)?), 3);
    Ok(())
}

// Opens the empty bundle, then `whole`, and then refuses a beginning of it.
fn keeps<'b>(
    rt: &impl Abort,
    bundle: &mut Bundle<'b>,
    whole: &'b [u8],
    beginning: &'b [u8],
) -> Result<(), Fail> {
    assert!(rt; bundle.parts().template(0).is_none());
    assert!(rt; bundle.open(whole).is_ok());
    assert!(rt; bundle.open(beginning).is_err());
    assert_eq!(rt; bundle.parts().bytes().len(), 494);
    let base = bundle.parts().template(0).ok_or("no template")?;
    assert!(rt; base.name() == b"base".as_slice());
    Ok(())
}

#[test]
fn keeps_what_is_open_where_it_refuses(rt: HostRuntime) -> Result<(), Fail> {
    let whole = base_line_cell(&rt)?;
    let bytes = whole.as_slice();
    assert!(rt; bytes.len() == 494);
    keeps(&rt, &mut Bundle::empty(), bytes, &bytes[0..493])
}
