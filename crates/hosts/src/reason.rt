// Why a rule is a fault, for the hosts of this repository.
ghost use Rattle.std.specs.Prelude.{◌≡◌};
ghost use Rattle.hosts.specs.Reasons.{number as number_of};

/// Each has the number that a fault of the host carries.
#[derive(Clone, Copy, PartialEq, Eq, Debug)]
pub enum Reason {
    /// The code is no place in the list of values.
    NoSuchValue = 1,
    /// The operation does not take a value of this kind.
    WrongKind = 2,
    /// The result is no 64-bit signed integer.
    Overflow = 3,
    /// The host does not have this operation.
    NoSuchOperation = 4,
    /// An attribute or an item of undefined.
    Undefined = 5,
    /// The value cannot be iterated.
    NotIterable = 6,
    /// The value has no text.
    NoText = 7,
    /// The value cannot be called.
    NotCallable = 8,
    /// The filter or test is not known, or does not take these arguments.
    BadArguments = 9,
    /// The host has no lists.
    NoLists = 10,
}

impl Reason {
    /// The number of this reason.
    pub fn number(self) -> u32
        ensures { result ≡ number_of self }
    {
        self as u32
    }
}
