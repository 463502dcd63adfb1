// A sink that compares with an expected text.
ghost use Rattle.std.specs.Prelude.{◌≡◌, ◌+◌, ◌≤◌, [], IsTrue, length, take};
ghost use Rattle.sinks.specs.Taking.{continues, matching};
ghost use Rattle.sinks.specs.Empty.{continues_empty};

use crate::{Refused, Sink};

/// Accepts every piece that continues the expected text.
#[derive(Drop)]
pub struct MatchingSink<'a> {
    expected: &'a [u8],
    // how much of it was taken: the text is lent
    seen: usize,
    ghost within: { seen ≤ length expected.now },
}

impl<'a> MatchingSink<'a> {
    /// A sink that has taken nothing yet.
    pub fn new(expected: &'a [u8]) -> MatchingSink<'a>
        ensures { matching result.seen result.expected.now ≡ record { text = []; rule = continues expected.now } }
    {
        MatchingSink { expected, seen: 0 }
    }

    /// The text taken: a beginning of the expected one.
    pub fn text(&self) -> &[u8]
        ensures { result.now ≡ (matching self.now.seen self.now.expected.now).text }
    {
        &self.expected[..self.seen]
    }

    fn is_next(&self, piece: &[u8]) -> bool
        ensures rule { result ≡ continues self.now.expected.now (take self.now.seen self.now.expected.now) piece.now }
        ensures fits { IsTrue result → self.now.seen + length piece.now ≤ length self.now.expected.now }
    {
        let rest = &self.expected[self.seen..];
        // `==` looks at the first bytes before all others, so that most pieces that differ are refused at once.
        piece.len() <= rest.len() && piece == &rest[..piece.len()]
    }
}

impl Sink for MatchingSink<'_> {
    ghost meaning = { λ s. matching s.seen s.expected.now };

    ghost empty = { λ s. continues_empty s.expected.now (take s.seen s.expected.now) };

    #[tactic(auto, using(crate::proofs::Offers::matched))]
    fn write(&mut self, piece: &[u8]) -> Result<(), Refused> {
        if !self.is_next(piece) {
            return Err(Refused);
        }
        self.seen += piece.len();
        Ok(())
    }
}
