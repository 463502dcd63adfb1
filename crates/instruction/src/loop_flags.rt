// How a loop is opened.
ghost use Rattle.std.specs.Prelude.{◌≡◌, ◌==◌, ◌%◌, nat_le};

// The flags of a loop, added up: 1 where its body sees the variable `loop`, 2 where it can be entered again from inside.
#[derive(Clone, Copy, PartialEq, Eq, Debug)]
pub struct LoopFlags(u8);

impl From<u8> for LoopFlags {
    ghost from_gives = { λ number flags. flags.0 ≡ number };

    fn from(number: u8) -> LoopFlags {
        LoopFlags(number)
    }
}

impl LoopFlags {
    pub fn has_loop_var(self) -> bool
        ensures { result ≡ (self.0 % 2 == 1) }
    {
        self.0 % 2 == 1
    }

    // A record that its kind allows has no flags above these two, so 2 and more is a recursive loop.
    pub fn is_recursive(self) -> bool
        ensures { result ≡ nat_le 2 self.0 }
    {
        self.0 >= 2
    }
}
