// A sink that fills a lent buffer.
ghost use Rattle.std.specs.Prelude.{◌≡◌, ◌≤◌, [], length, drop, is_ok};
ghost use Rattle.sinks.specs.Taking.{accepts, offered, fits, buffering};
ghost use Rattle.sinks.specs.Empty.{fits_empty};

use crate::{Refused, Sink};

/// Accepts every piece that still fits; the bytes past the text taken are never touched.
#[derive(Drop)]
pub struct BufferSink<'a> {
    bytes: &'a mut [u8],
    // how many of the bytes are the text: they are lent, so that no growing list can hold them
    len: usize,
    ghost within: { len ≤ length bytes.now },
}

impl<'a> BufferSink<'a> {
    /// A sink that has taken nothing yet.
    pub fn new(out: &'a mut [u8]) -> BufferSink<'a>
        ensures taken { buffering result.len result.bytes.now ≡ record { text = []; rule = fits (length out.old) } }
        ensures lent { result.bytes.now ≡ out.old }
    {
        BufferSink { bytes: out, len: 0 }
    }

    /// The text taken.
    pub fn text(&self) -> &[u8]
        ensures { result.now ≡ (buffering self.now.len self.now.bytes.now).text }
    {
        &self.bytes[..self.len]
    }

    /// Puts a piece that fits behind the text; the bytes past the text then stay as they were.
    #[tactic(auto, using(std::proofs::lemmas::Slice::overwrites))]
    pub fn push(&mut self, piece: &[u8]) -> Result<(), Refused>
        ensures answer { is_ok result ≡ accepts (buffering self.old.len self.old.bytes.now) piece.now }
        ensures after { buffering self.new.len self.new.bytes.now ≡ offered (buffering self.old.len self.old.bytes.now) piece.now }
        ensures untouched { drop self.new.len self.new.bytes.now ≡ drop self.new.len self.old.bytes.now }
    {
        if piece.len() > self.bytes.len() - self.len {
            return Err(Refused);
        }
        let end = self.len + piece.len();
        self.bytes[self.len..end].copy_from_slice(piece);
        self.len = end;
        Ok(())
    }
}

impl Sink for BufferSink<'_> {
    ghost meaning = { λ s. buffering s.len s.bytes.now };

    ghost empty = { λ s. fits_empty s.bytes.now s.len };

    fn write(&mut self, piece: &[u8]) -> Result<(), Refused> {
        self.push(piece)
    }
}
