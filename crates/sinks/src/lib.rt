// Where the text of a run goes.
#![tactic(auto)]

ghost use Rattle.std.specs.Prelude.{◌≡◌, true, [], is_ok};
ghost use Rattle.sinks.specs.Taking.{Taking, accepts, offered};

mod buffer;
mod matching;

pub use buffer::BufferSink;
pub use matching::MatchingSink;

/// The rule of the sink does not accept the piece now; the sink is as it was before.
#[derive(Clone, Copy, PartialEq, Eq, Debug)]
pub struct Refused;

/// Gets text piece by piece. It is known by the text that it has, and by a rule for the pieces that may follow; no rule
/// turns the empty piece away.
pub trait Sink {
    ghost meaning: { Self → Taking };

    ghost empty: { (s : Self) → accepts (meaning s) [] ≡ true };

    /// Takes an accepted piece whole, and refuses any other without effect.
    fn write(&mut self, piece: &[u8]) -> Result<(), Refused>
        ensures answer { is_ok result ≡ accepts (meaning self.old) piece.now }
        ensures after { meaning self.new ≡ offered (meaning self.old) piece.now };
}

#[cfg(test)]
mod tests {
    use super::*;

    #[test]
    fn a_buffer_takes_what_fits(rt: HostRuntime) {
        let mut bytes = [7u8; 5];
        let mut sink = BufferSink::new(&mut bytes);
        assert!(rt; sink.text() == b"".as_slice());
        assert!(rt; sink.write(b"abc").is_ok());
        assert!(rt; sink.write(b"def").is_err());
        assert!(rt; sink.text() == b"abc".as_slice());
        assert!(rt; sink.write(b"de").is_ok());
        assert!(rt; sink.write(b"").is_ok());
        assert!(rt; sink.write(b"f").is_err());
        assert!(rt; sink.text() == b"abcde".as_slice());
    }

    #[test]
    fn a_buffer_leaves_the_bytes_past_its_text(rt: HostRuntime) {
        let mut bytes = [7u8; 5];
        let mut sink = BufferSink::new(&mut bytes);
        assert!(rt; sink.write(b"ab").is_ok());
        assert!(rt; sink.write(b"cdef").is_err());
        assert!(rt; bytes == [97, 98, 7, 7, 7]);
    }

    #[test]
    fn an_empty_buffer_takes_only_the_empty_piece(rt: HostRuntime) {
        let mut bytes = [0u8; 0];
        let mut sink = BufferSink::new(&mut bytes);
        assert!(rt; sink.write(b"").is_ok());
        assert!(rt; sink.write(b"a").is_err());
        assert!(rt; sink.text() == b"".as_slice());
    }

    #[test]
    fn a_comparison_takes_what_continues(rt: HostRuntime) {
        let mut sink = MatchingSink::new(b"line 1");
        assert!(rt; sink.write(b"line").is_ok());
        assert!(rt; sink.write(b"line").is_err());
        assert!(rt; sink.write(b" 2").is_err());
        assert!(rt; sink.text() == b"line".as_slice());
        assert!(rt; sink.write(b" 12").is_err());
        assert!(rt; sink.write(b" 1").is_ok());
        assert!(rt; sink.write(b"").is_ok());
        assert!(rt; sink.write(b"1").is_err());
        assert!(rt; sink.text() == b"line 1".as_slice());
    }
}
