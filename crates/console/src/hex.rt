// A bundle as a line of hex digits, two to a byte.
ghost use Rattle.std.specs.Prelude.{◌≡◌, IfOk};
ghost use Rattle.std.specs.Option.{option_map};
ghost use Rattle.std.specs.Vec as Vecs;
ghost use Rattle.console.specs.Hex.{digit_value, byte_of, line_bytes};

use std::alloc::{AllocError, Global};

// The value of a hex digit of either case. (`char::to_digit` gives a `u32` of a `char`, to be cast back with a bound.)
fn digit_value(digit: u8) -> Option<u8>
    ensures { result ≡ digit_value digit }
{
    match digit {
        b'0'..=b'9' => Some(digit - b'0'),
        b'a'..=b'f' => Some(digit - b'a' + 10),
        b'A'..=b'F' => Some(digit - b'A' + 10),
        _ => None,
    }
}

// The byte that two hex digits write.
fn byte_of(high: u8, low: u8) -> Option<u8>
    ensures { result ≡ byte_of high low }
{
    let high = digit_value(high)?;
    let low = digit_value(low)?;
    Some(16 * high + low)
}

// The bytes that a line writes, or none where it has an odd number of digits or anything else than digits.
pub fn bytes_of_line(heap: Global, line: &[u8]) -> Result<Option<Vec<u8>>, AllocError>
    ensures { IfOk result (λ o. option_map Vecs.vec_items o ≡ line_bytes line.now) }
{
    let mut bytes = Vec::new(heap);
    let mut rest = line;
    while let [high, low, tail @ ..] = rest {
        match byte_of(*high, *low) {
            Some(byte) => bytes.push(byte)?,
            None => return Ok(None),
        }
        rest = tail;
    }
    if rest.is_empty() {
        Ok(Some(bytes))
    } else {
        Ok(None)
    }
}
