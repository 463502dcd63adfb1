// Why a run ends before its text is whole.
ghost use Rattle.std.specs.Prelude.{◌≡◌};
ghost use Rattle.machine.specs.Faults.{number as number_of, layer as layer_of};

#[derive(Clone, Copy, PartialEq, Eq, Debug)]
pub enum Fault {
    /// No fuel is left after a charge.
    OutOfFuel,
    /// The sink refuses the piece.
    WriteFailure,
    /// One frame more would pass the limit of the run.
    FrameLimit,
    /// Operands, locals, captures or scratch are full.
    Full,
    TemplateNotFound,
    /// A second extend, a name that is no text, or a name that was loaded before.
    BadExtend,
    /// An eighth load.
    EighthLoad,
    UnknownBlock,
    /// A required block that no other definition overrides.
    RequiredBlock,
    /// A super with arguments, outside of a block, or without a next definition.
    BadSuper,
    /// A loop used in a way that it does not allow, or after its end.
    BadLoop,
    /// A filter, test or function that is not known.
    Unknown,
    /// A rule of the host is a fault; the number is the host's own, so that no enum of ours can name it.
    Host(u32),
    /// What is to be added would pass a limit of the host.
    HostFull,
}

/// Who found the fault.
#[derive(Clone, Copy, PartialEq, Eq, Debug)]
pub enum Layer {
    Machine,
    Host,
    Sink,
}

impl Fault {
    // What a user sees of a fault.
    // An enum is no plainer: this number stands for the enum outside of the program.
    pub fn number(self) -> u8
        ensures { result ≡ number_of self }
    {
        match self {
            Fault::OutOfFuel => 20,
            Fault::WriteFailure => 21,
            Fault::FrameLimit => 22,
            Fault::Full => 23,
            Fault::TemplateNotFound => 24,
            Fault::BadExtend => 25,
            Fault::EighthLoad => 26,
            Fault::UnknownBlock => 27,
            Fault::RequiredBlock => 28,
            Fault::BadSuper => 29,
            Fault::BadLoop => 30,
            Fault::Unknown => 31,
            Fault::Host(_) => 32,
            Fault::HostFull => 33,
        }
    }

    pub fn layer(self) -> Layer
        ensures { result ≡ layer_of self }
    {
        match self {
            Fault::WriteFailure => Layer::Sink,
            Fault::Host(_) | Fault::HostFull => Layer::Host,
            _ => Layer::Machine,
        }
    }
}
