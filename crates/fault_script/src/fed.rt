// What a piece of a text leads to.

/// What a piece of a text leads to: further, or to the end of the text.
#[derive(Clone, Copy, Debug, PartialEq, Eq)]
pub enum Fed {
    /// So far there is neither a refusal nor a line `e` with its line feed.
    More,
    /// The text has ended with the line feed of its line `e`: so many bytes of the piece belong to it, 0 where it had ended before.
    Ended(usize),
}
