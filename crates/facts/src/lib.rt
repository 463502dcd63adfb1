// Facts in a text of lines `key=value`.
#![tactic(auto)]

ghost use Rattle.std.specs.Prelude.{◌≡◌, ◌<◌, ◌≤◌, ◌==◌, Some, None, true, false, MatchOption, length};
ghost use Rattle.std.specs.Option.{option_map};
ghost use Rattle.std.specs.List.{before_first, after_first, position_or_len};
ghost use Rattle.facts.specs.Facts.{is_feed, is_equals, has_key, value_of as given, LinesAreTheText};

// What stands before the first such byte and what stands after it, or none where it is not there.
fn cut(text: &[u8], byte: u8) -> Option<(&[u8], &[u8])>
    ensures { MatchOption result (length text.now ≤ position_or_len (λ b. b == byte) text.now) (λ p. (position_or_len (λ b. b == byte) text.now < length text.now) × (p.0.now ≡ before_first (λ b. b == byte) text.now) × (p.1.now ≡ after_first (λ b. b == byte) text.now)) }
{
    match text.iter().position(|&other| other == byte) {
        Some(place) => Some((&text[..place], &text[place + 1..])),
        None => None,
    }
}

// The first line, without its line feed, and what stands after it.
fn first_line(text: &[u8]) -> (&[u8], &[u8])
    ensures { (result.0.now ≡ before_first is_feed text.now) × (result.1.now ≡ after_first is_feed text.now) }
{
    cut(text, b'\n').unwrap_or((text, &[]))
}

// The value of a line with this key.
fn value_in<'f>(line: &'f [u8], key: &[u8]) -> Option<&'f [u8]>
    ensures { MatchOption result (has_key key.now line.now ≡ false) (λ value. (has_key key.now line.now ≡ true) × (value.now ≡ after_first is_equals line.now)) }
{
    let (before, after) = cut(line, b'=')?;
    if before == key { Some(after) } else { None }
}

/// The value that a text of facts gives a name: that of the first line whose key it is.
#[tactic(auto, using(crate::proofs::Lines::value_here, crate::proofs::Lines::value_later, crate::proofs::Lines::lines_joined, crate::proofs::Lines::no_line_has_a_feed))]
pub fn value_of<'f>(facts: &'f [u8], name: &[u8]) -> Option<&'f [u8]>
    ensures value { MatchOption result (given facts.now name.now ≡ None) (λ value. given facts.now name.now ≡ Some value.now) }
    ensures lines { LinesAreTheText facts.now }
{
    let mut rest = facts;
    while !rest.is_empty() {
        let (line, after) = first_line(rest);
        if let Some(value) = value_in(line, name) {
            return Some(value);
        }
        rest = after;
    }
    None
}

#[cfg(test)]
mod tests {
    use super::*;

    const FACTS: &[u8] =
        b"port=80\nports=81,82\nname=a=b\nport=90\nempty=\n\nno key\n=of nothing\nlast=x";

    #[test]
    fn finds_the_first_line_with_the_key(rt: HostRuntime) {
        assert!(rt; value_of(FACTS, b"port") == Some(b"80".as_slice()));
        assert!(rt; value_of(FACTS, b"ports") == Some(b"81,82".as_slice()));
        assert!(rt; value_of(FACTS, b"last") == Some(b"x".as_slice()));
        assert!(rt; value_of(FACTS, b"empty") == Some(b"".as_slice()));
        assert!(rt; value_of(FACTS, b"") == Some(b"of nothing".as_slice()));
    }

    #[test]
    fn a_key_ends_at_the_first_equals_sign(rt: HostRuntime) {
        assert!(rt; value_of(FACTS, b"name") == Some(b"a=b".as_slice()));
        assert!(rt; value_of(FACTS, b"name=a").is_none());
        assert!(rt; value_of(FACTS, b"por").is_none());
        assert!(rt; value_of(FACTS, b"portss").is_none());
    }

    #[test]
    fn a_line_without_a_key_gives_nothing(rt: HostRuntime) {
        assert!(rt; value_of(FACTS, b"no key").is_none());
        assert!(rt; value_of(b"", b"").is_none());
        assert!(rt; value_of(b"port", b"port").is_none());
        assert!(rt; value_of(b"\n\n=", b"") == Some(b"".as_slice()));
        assert!(rt; value_of(b"a=1\r\nb=2", b"a") == Some(b"1\r".as_slice()));
    }
}
