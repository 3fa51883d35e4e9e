// The words of the sides, as plain data.

/// The words of one side.
#[derive(Clone, Copy, Debug, PartialEq, Eq)]
pub struct SideWords {
    /// The word that it published last.
    pub publish: u64,
    /// The peer's publish word, as it looked at it last.
    pub seen: u64,
    /// The word that it commanded last.
    pub command: u64,
}

/// The words of both sides.
#[derive(Clone, Copy, Debug, PartialEq, Eq)]
pub struct Collected {
    pub a: SideWords,
    pub b: SideWords,
}
