ghost use Rattle.std.specs.Prelude.{◌≡◌};
ghost use Rattle.serna_main.specs.Status.{number_of};

/// How a run ended.
#[derive(Clone, Copy, Debug, PartialEq, Eq)]
pub enum Status {
    /// The input was read to its end, all replies were written, and `finish` answered true.
    Ok,
    /// The words are in no accepted form.
    BadWords,
    /// The input is not a document of the built form with a script, and a stylesheet of the built form before it or none.
    InputRefused,
    /// The source failed: its count of faults rose.
    ReadFault,
    /// The sink failed, in a write or in `finish` after all replies were written: its count of faults rose.
    WriteFault,
    /// There was no memory. Any run may end so.
    NoMemory,
}

impl Status {
    /// The exit status of the program.
    pub fn number(self) -> u8
        ensures { result ≡ number_of self }
    {
        match self {
            Status::Ok => 0,
            Status::BadWords => 2,
            Status::InputRefused => 3,
            Status::ReadFault => 4,
            Status::WriteFault => 5,
            Status::NoMemory => 6,
        }
    }
}
