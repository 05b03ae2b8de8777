//! What a call did.

/// How a call went.
#[derive(Clone, Copy)]
pub(crate) enum Answer {
    /// It was not made: the memory for what it takes was refused.
    Unready,
    Done,
    /// It answered that memory was refused, and all is as it was.
    Refused,
    Wrong,
}

/// A refusal out of memory that left all as it was, or else something wrong.
pub(crate) fn refused(as_it_was: bool) -> Answer {
    if as_it_was {
        Answer::Refused
    } else {
        Answer::Wrong
    }
}
