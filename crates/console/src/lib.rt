// Answers to lines of hex digits.
#![tactic(auto)]

ghost use Rattle.std.specs.Prelude.{◌≡◌, IfOk, string_bytes};
ghost use Rattle.opening.specs.Refusals.{number};
ghost use Rattle.console.specs.Answer.{cause_line, Answers};
ghost use Rattle.console.specs.Hex.{line_bytes};

pub mod escape;
pub mod hex;

use hex::bytes_of_line;
use opening::refusal::Refusal;
use opening::refusal_of;
use std::alloc::{AllocError, Global};

fn cause_line(heap: Global, refusal: Option<Refusal>) -> Result<String, AllocError>
    ensures { IfOk result (λ s. string_bytes s ≡ cause_line (number refusal)) }
{
    let number = refusal.map_or(0, |refusal| refusal.cause().number());
    format!(in heap; "cause {number}")
}

// The answer to a line: the lowest of the causes 1 to 5 of the bundle that it writes, 0 where it opens,
// or that it writes no bundle.
pub fn answer(heap: Global, line: &[u8]) -> Result<String, AllocError>
    ensures { IfOk result (λ s. Answers (line_bytes line.now) (string_bytes s)) }
{
    match bytes_of_line(heap, line)? {
        Some(bytes) => cause_line(heap, refusal_of(&bytes)),
        None => String::from_str(heap, "bad line"),
    }
}

#[cfg(test)]
mod tests {
    use super::*;
    use crate::escape::escape;
    use std::test::Fail;

    #[test]
    fn escapes(rt: HostRuntime) -> Result<(), Fail> {
        let text = escape(rt.alloc(), b"a b\t\"\\\n\x7f\xe9")?;
        assert_eq!(rt; text.as_str(), "a b\\t\\\"\\\\\\n\\x7f\\xe9");
        Ok(())
    }

    #[test]
    fn reads_hex(rt: HostRuntime) -> Result<(), Fail> {
        let heap = rt.alloc();
        let bytes = bytes_of_line(heap, b"0aFf")?.ok_or("refused")?;
        assert_eq!(rt; bytes.as_slice(), [10, 255].as_slice());
        assert!(rt; bytes_of_line(heap, b"0aF")?.is_none());
        assert!(rt; bytes_of_line(heap, b"0g")?.is_none());
        Ok(())
    }
}
