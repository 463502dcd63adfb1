ghost use Rattle.std.specs.Prelude.{◌≡◌, if◌then◌else◌, Some, None, nat_lt};

// How many filters, and how many tests, one code can keep resolved.
pub const MAX_LOCALS: u8 = 50;

// What stands in a record where nothing is kept.
pub const NO_LOCAL: u8 = 255;

// The cache slot of a filter or a test. It is no number that could be taken for an argument count.
// Any byte, and no `Option` of a slot: what a record holds is kept as it is, 50 to 254 too.
#[derive(Clone, Copy, PartialEq, Eq, Debug)]
pub struct LocalId(u8);

impl From<u8> for LocalId {
    ghost from_gives = { λ small id. id.0 ≡ small };

    fn from(small: u8) -> LocalId {
        LocalId(small)
    }
}

impl LocalId {
    // The slot, or none where nothing is kept.
    pub fn slot(self) -> Option<usize>
        ensures { result ≡ (if nat_lt self.0 50 then Some self.0 else None) }
    {
        (self.0 < MAX_LOCALS).then_some(usize::from(self.0))
    }
}
