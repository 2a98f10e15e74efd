// Lists that a call fills. Before it each place holds a pattern, so that a change where none may be does not stay unseen.
use std::alloc::{AllocError, Global};

// No row and no cell is longer, so a longer list is answered as one of this length.
const LONGEST_LIST: usize = 65536;

/// What a place of a list holds before a call.
pub trait Pattern: PartialEq + Drop {
    /// What the place `i` holds.
    fn at(i: usize) -> Self;
}

// Yes at even places, so that neither a yes nor a no too many stays unseen.
impl Pattern for bool {
    fn at(i: usize) -> bool {
        i % 2 == 0
    }
}

impl Pattern for u8 {
    fn at(_i: usize) -> u8 {
        0xA5
    }
}

/// A list of so many places, or of the longest that is of use.
pub(crate) fn patterned<T: Pattern>(heap: Global, room: usize) -> Result<Vec<T>, AllocError> {
    (0..room.min(LONGEST_LIST)).map(|i| T::at(i)).collect(heap)
}

/// What an answer ends in where a place from `from` on is not as it was.
pub(crate) fn spoiled<T: Pattern>(list: &[T], from: usize) -> &'static str {
    let kept = |(i, x): (usize, &T)| *x == T::at(i);
    if list.iter().enumerate().skip(from).all(kept) {
        ""
    } else {
        " spoiled"
    }
}
