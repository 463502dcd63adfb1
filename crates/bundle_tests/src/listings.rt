// The listings of bundles.
use crate::assembled::{Line, Parts, assemble, base_line_cell};
use bundle::examine;
use listing::list;
use std::process::Abort;
use std::test::Fail;

fn lists(rt: &(impl Abort + AllocGlobal), bytes: &[u8], expected: &str) -> Result<(), Fail> {
    match examine(bytes) {
        Ok(bundle) => {
            assert_eq!(rt; list(rt.alloc(), bundle)?.as_str(), expected);
            Ok(())
        },
        Err(_) => Err(Fail::new("refused")),
    }
}

const BASE_LINE_CELL: &str = "494 bytes
  section       count  offset
  templates         3      48
  blocks            3     108
  codes             6     144
  instructions     14     216
  constants         2     440
  text             30     464

template 0 \"base\"
  main, code 0
       0   0  EmitRaw \"[\"   line 1
       1   0  CallBlock \"ports\"   line 2
       2   0  EmitRaw \"]\"   line 3
  block 0 \"ports\", code 1
       0   0  EmitRaw \"80\"   line 2

template 1 \"line\"
  main, code 2
       0   0  LoadConst \"base\"   line 1
       1   1  LoadBlocks   line 1
       2   0  CallBlock \"ports\"   line 2
  block 1 \"ports\", code 3
       0   0  EmitRaw \"81\"   line 2

template 2 \"cell\"
  main, code 4
       0   0  LoadConst \"line\"   line 1
       1   1  LoadBlocks   line 1
       2   0  EmitRaw \"junk\"   line 2
       3   0  CallBlock \"ports\"   line 3
  block 2 \"ports\", code 5
       0   0  EmitRaw \"82,\"   line 3
       1   0  FastSuper
";

#[test]
fn lists_base_line_and_cell(rt: HostRuntime) -> Result<(), Fail> {
    lists(&rt, &base_line_cell(&rt)?, BASE_LINE_CELL)
}

const SCOPE: &str = "144 bytes
  section       count  offset
  templates         1      48
  blocks            0      68
  codes             1      68
  instructions      4      80
  constants         0     144
  text              0     144

template 0 \"\"
  main, code 0
       0   0  PushWith   line 1
       1   0  Jump -> 3   line 1   in with 0
       2   -  EmitRaw \"\"   line 2
       3   0  PopFrame   line 3   in with 0
";

// A scope, and in it a jump over an instruction that no path reaches.
#[test]
fn lists_open_marks_and_unreached_instructions(rt: HostRuntime) -> Result<(), Fail> {
    let bytes = assemble(
        &rt,
        &Parts {
            templates: &[[0; 5]],
            blocks: &[],
            codes: &[[0, 4, 0]],
            instructions: &[
                Line {
                    kind: 37,
                    a: 0,
                    b: 0,
                    line: 1,
                },
                Line {
                    kind: 42,
                    a: 3,
                    b: 0,
                    line: 1,
                },
                Line {
                    kind: 0,
                    a: 0,
                    b: 0,
                    line: 2,
                },
                Line {
                    kind: 40,
                    a: 0,
                    b: 0,
                    line: 3,
                },
            ],
            constants: &[],
            text: &[],
        },
    )?;
    lists(&rt, &bytes, SCOPE)
}
