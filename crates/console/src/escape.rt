// Bytes as printable text.
ghost use Rattle.std.specs.Prelude.{◌≡◌, IfOk, Some, string_bytes};
ghost use Rattle.console.specs.Escape.{escaped_byte, escaped};

use std::alloc::{AllocError, Global};
use std::fmt;

// A byte as it is written inside quotes.
#[derive(Clone, Copy)]
struct EscapedByte(u8);

impl fmt::Display for EscapedByte {
    ghost output = { λ x. Some (escaped_byte x.0) };

    fn fmt<W: fmt::Write>(&self, f: &mut fmt::Formatter<W>) -> fmt::Result {
        let byte = self.0;
        match byte {
            b'\n' => f.write_str("\\n"),
            b'\t' => f.write_str("\\t"),
            b'\\' => f.write_str("\\\\"),
            b'"' => f.write_str("\\\""),
            32..=126 => f.write_char(byte as char),
            _ => write!(f, "\\x{byte:02x}"),
        }
    }
}

// A text with each byte that is not printable written out.
#[derive(Clone, Copy)]
pub struct Escaped<'b>(pub &'b [u8]);

impl fmt::Display for Escaped<'_> {
    ghost output = { λ x. Some (escaped x.0.now) };

    fn fmt<W: fmt::Write>(&self, f: &mut fmt::Formatter<W>) -> fmt::Result {
        for byte in self.0 {
            f.write(EscapedByte(*byte))?;
        }
        Ok(())
    }
}

// The same as a text of its own.
pub fn escape(heap: Global, bytes: &[u8]) -> Result<String, AllocError>
    ensures { IfOk result (λ s. string_bytes s ≡ escaped bytes.now) }
{
    format!(in heap; "{}", Escaped(bytes))
}
