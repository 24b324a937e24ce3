//! How far the lines of a text are told.
ghost use Rattle.std.specs.Prelude.{◌≡◌, ◌≤◌};

/// How far a text is read: where the next line begins, how many lines are written, and how many attempts these are.
#[derive(Clone, Copy)]
pub struct Progress {
    pub at: usize,
    pub lines: usize,
    pub attempts: usize,
    ghost few: { lines ≤ at },
}

impl Progress {
    /// Before the first line.
    pub fn nothing() -> Progress
        ensures { (result.at ≡ 0) × ((result.lines ≡ 0) × (result.attempts ≡ 0)) }
    {
        Progress {
            at: 0,
            lines: 0,
            attempts: 0,
        }
    }
}
