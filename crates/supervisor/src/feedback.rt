// What the contactors report back (own).
ghost use Rattle.std.specs.Prelude.{◌≡◌, ◌||◌, ◌&&◌, not};

/// Whether each side's contactor was closed at the present tick.
#[derive(Clone, Copy, Debug, PartialEq, Eq)]
pub struct Feedback {
    pub a: bool,
    pub b: bool,
}

impl Feedback {
    /// A contactor is closed.
    pub fn is_closed(self) -> bool
        ensures { result ≡ (self.a || self.b) }
    {
        self.a || self.b
    }

    /// A contactor is open.
    pub fn is_open(self) -> bool
        ensures { result ≡ (not self.a || not self.b) }
    {
        !self.a || !self.b
    }
}
