//! Why bytes are no line of moves.
ghost use Rattle.std.specs.Prelude.{◌≡◌, ◌≤◌, length};
ghost use Rattle.niss_moves.specs.Faults.{fault_column, fault_text};

/// What is wrong in a line, and where. Columns count bytes from 1. There is no `Display` of it: `column` and `text`
/// give what a caller writes, in the bytes that the engine writes.
#[derive(Clone, Copy, Debug, PartialEq, Eq)]
pub enum ReadFault {
    /// A byte that can't go on there; of a cut U+2019, its first byte.
    NotAMove { column: u32 },
    /// An opening bracket inside a bracket.
    Nested { column: u32 },
    /// A closing bracket while none is open.
    Unopened { column: u32 },
    /// An opening bracket that the line's end leaves open.
    Unclosed { column: u32 },
    /// The first byte of the 257th move.
    TooLong { column: u32 },
}

impl ReadFault {
    /// The column of the fault.
    pub fn column(self) -> u32
        ensures { result ≡ fault_column self }
    {
        match self {
            ReadFault::NotAMove { column } => column,
            ReadFault::Nested { column } => column,
            ReadFault::Unopened { column } => column,
            ReadFault::Unclosed { column } => column,
            ReadFault::TooLong { column } => column,
        }
    }

    /// What is wrong at the column in a few words, such as `not a move`.
    pub fn text(self) -> &'static str
        ensures text { result.now ≡ fault_text self }
        ensures short { length result.now ≤ 40 }
    {
        match self {
            ReadFault::NotAMove { .. } => "not a move",
            ReadFault::Nested { .. } => "bracket inside a bracket",
            ReadFault::Unopened { .. } => "bracket closed that was not opened",
            ReadFault::Unclosed { .. } => "bracket not closed",
            ReadFault::TooLong { .. } => "more than 256 moves",
        }
    }
}
