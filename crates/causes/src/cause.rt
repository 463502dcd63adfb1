// The causes for which a bundle does not open, each with its number. The lowest one counts.
ghost use Rattle.std.specs.Prelude.{◌≡◌};
ghost use Rattle.causes.specs.Causes.{cause_number};

#[derive(Clone, Copy, PartialEq, Eq, Debug)]
pub enum Cause {
    // the size or the header is wrong
    Header = 1,
    // something named lies outside, or a record is named more or less than once
    Reference = 2,
    // a kind, a field, a number of instructions or a flag is not allowed, or LoadBlocks stands outside main code
    Field = 3,
    // a name stands twice, or there are too many of them
    Name = 4,
    // a code does not stand
    Standing = 5,
}

impl Cause {
    pub fn number(self) -> u8
        ensures { result ≡ cause_number self }
    {
        self as u8
    }
}
