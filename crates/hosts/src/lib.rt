// Where values come from.
#![tactic(auto)]

ghost use Rattle.std.specs.Prelude.{◌≡◌, length};
ghost use Rattle.hosts.specs.Meaning.{Meaning};
ghost use Rattle.hosts.specs.Laws.{Lawful};
ghost use Rattle.hosts.specs.Answers.{Gives, plainly, found, after_found, looks_up, gets_attr, gets_item, counts, iterates, truth, shows, shown, fitted, text_test, makes_integer, makes_text, makes_list, unary_gives, binary_gives, filters, tests, calls};

pub mod reason;

/// The code of the value that every host has for what is missing.
pub const UNDEFINED: u32 = 0;

pub const FALSE: u32 = 1;

pub const TRUE: u32 = 2;

/// Why a host refuses; it is then as it was before.
#[derive(Clone, Copy, PartialEq, Eq, Debug)]
pub enum Refusal {
    /// A rule of the host is a fault; the number is the host's own, so that no enum of ours can name it.
    Fault(u32),
    /// What is to be added would pass a limit of the host.
    Full,
}

/// The operations on one value.
#[derive(Clone, Copy, PartialEq, Eq, Debug)]
pub enum Unary {
    Neg,
    Not,
}

/// The operations on two values.
#[derive(Clone, Copy, PartialEq, Eq, Debug)]
pub enum Binary {
    Add,
    Sub,
    Mul,
    Div,
    IntDiv,
    Rem,
    Pow,
    Eq,
    Ne,
    Gt,
    Gte,
    Lt,
    Lte,
    StringConcat,
    In,
}

/// Holds values and knows what can be done with them. A value goes by its code, its place in a list that begins with
/// undefined, false and true and only ever grows at its end. The list, the limits, the rules and the arguments fix every
/// answer and the list after it. A refusal changes nothing.
pub trait Host {
    ghost meaning: { Self → Meaning };

    ghost lawful: { (h : Self) → Lawful (meaning h) };

    /// What a name finds, or none.
    fn lookup(&mut self, name: &[u8]) -> Result<Option<u32>, Refusal>
        ensures answer { result ≡ found (meaning self.old) (looks_up (meaning self.old) name.now) }
        ensures after { meaning self.new ≡ after_found (meaning self.old) (looks_up (meaning self.old) name.now) };

    fn get_attr(&mut self, value: u32, name: &[u8]) -> Result<u32, Refusal>
        ensures { Gives (meaning self.old) (meaning self.new) (gets_attr (meaning self.old) value name.now) result };

    fn get_item(&mut self, value: u32, key: u32) -> Result<u32, Refusal>
        ensures { Gives (meaning self.old) (meaning self.new) (gets_item (meaning self.old) value key) result };

    /// How many items a loop over the value has.
    fn count(&self, value: u32) -> Result<u32, Refusal>
        ensures { result ≡ plainly (counts (meaning self.now) value) };

    /// The item of a loop over the value that stands at this place.
    fn item(&mut self, value: u32, place: u32) -> Result<u32, Refusal>
        ensures { Gives (meaning self.old) (meaning self.new) (iterates (meaning self.old) value place) result };

    fn is_true(&self, value: u32) -> Result<bool, Refusal>
        ensures { result ≡ plainly (truth (meaning self.now) value) };

    /// Writes the text of a value to the beginning of `out`, and tells its length, or none where it is longer than `out`.
    /// The bytes behind it may be any.
    fn text(&self, value: u32, out: &mut [u8]) -> Result<Option<usize>, Refusal>
        ensures { shown result out.new ≡ fitted (length out.old) (shows (meaning self.now) value) };

    fn is_text(&self, value: u32) -> Result<bool, Refusal>
        ensures { result ≡ plainly (text_test (meaning self.now) value) };

    fn has_filter(&self, name: &[u8]) -> bool
        ensures { result ≡ (meaning self.now).rules.has_filter name.now };

    fn has_test(&self, name: &[u8]) -> bool
        ensures { result ≡ (meaning self.now).rules.has_test name.now };

    fn make_integer(&mut self, n: i64) -> Result<u32, Refusal>
        ensures { Gives (meaning self.old) (meaning self.new) (makes_integer (meaning self.old) n) result };

    fn make_text(&mut self, text: &[u8]) -> Result<u32, Refusal>
        ensures { Gives (meaning self.old) (meaning self.new) (makes_text (meaning self.old) text.now) result };

    fn make_list(&mut self, items: &[u32]) -> Result<u32, Refusal>
        ensures { Gives (meaning self.old) (meaning self.new) (makes_list (meaning self.old) items.now) result };

    fn unary(&mut self, op: Unary, value: u32) -> Result<u32, Refusal>
        ensures { Gives (meaning self.old) (meaning self.new) (unary_gives (meaning self.old) op value) result };

    fn binary(&mut self, op: Binary, left: u32, right: u32) -> Result<u32, Refusal>
        ensures { Gives (meaning self.old) (meaning self.new) (binary_gives (meaning self.old) op left right) result };

    fn filter(&mut self, name: &[u8], args: &[u32]) -> Result<u32, Refusal>
        ensures { Gives (meaning self.old) (meaning self.new) (filters (meaning self.old) name.now args.now) result };

    fn test(&self, name: &[u8], args: &[u32]) -> Result<bool, Refusal>
        ensures { result ≡ plainly (tests (meaning self.now) name.now args.now) };

    /// Calls a value as a function.
    fn call(&mut self, value: u32, args: &[u32]) -> Result<u32, Refusal>
        ensures { Gives (meaning self.old) (meaning self.new) (calls (meaning self.old) value args.now) result };
}
