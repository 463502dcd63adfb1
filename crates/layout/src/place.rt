// Numbers in the bytes, little-endian. A byte past the end reads as 0.
ghost use Rattle.std.specs.Prelude.{◌≡◌, ◌+◌, ◌^◌, ◌<◌};
ghost use Rattle.layout.specs.Layout.{byte, u16 as half, u32 as word};

// Where something begins: the header, or a record.
#[derive(Clone, Copy)]
pub struct Place<'b> {
    pub(crate) bytes: &'b [u8],
    pub(crate) at: usize,
    ghost low: { at < 2 ^ 40 },
}

// The three widths of the format. (With a width for parameter the result would be bytes, and each type's own conversion
// would stay at its callers.)
impl Place<'_> {
    // The number of one byte that stands so many bytes after the place.
    pub fn u8(self, field: u8) -> u8
        ensures { result ≡ byte self.entry.bytes.now (self.entry.at + field) }
    {
        byte_at(self.bytes, self.at + field as usize)
    }

    pub fn u16(self, field: u8) -> u16
        ensures { result ≡ half self.entry.bytes.now (self.entry.at + field) }
    {
        let at = self.at + field as usize;
        u16::from_le_bytes([byte_at(self.bytes, at), byte_at(self.bytes, at + 1)])
    }

    pub fn u32(self, field: u8) -> u32
        ensures { result ≡ word self.entry.bytes.now (self.entry.at + field) }
    {
        let at = self.at + field as usize;
        u32::from_le_bytes([
            byte_at(self.bytes, at),
            byte_at(self.bytes, at + 1),
            byte_at(self.bytes, at + 2),
            byte_at(self.bytes, at + 3),
        ])
    }
}

fn byte_at(bytes: &[u8], at: usize) -> u8
    ensures { result ≡ byte bytes.now at }
{
    bytes.get(at).copied().unwrap_or(0)
}
