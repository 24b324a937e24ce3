//! How a call ended.
ghost use Rattle.std.specs.Prelude.{◌≡◌};
ghost use Rattle.niss_text.specs.Numbers.{number_of_status};

/// How a call ended that writes into room of its caller.
#[derive(Clone, Copy, PartialEq, Eq)]
pub enum Status {
    /// All is written.
    Done,
    /// No moves have such a number.
    Usage,
    /// The room is too small.
    NoRoom,
}

impl Status {
    /// Its number, that of an exit status of the program if that has one.
    pub fn number(self) -> u8
        ensures { result ≡ number_of_status self }
    {
        match self {
            Status::Done => 0,
            Status::Usage => 2,
            Status::NoRoom => 4,
        }
    }
}
