//! What is kept of a text while it is read. `reading.rt` (one text) and `taking.rt` (lines) fill
//! it, and `answer.rt` answers it.

ghost use Rattle.std.specs.Prelude.{◌≡◌, ◌≤◌, max, ℕ, List, [], ◌++◌, IfSome};
ghost use Rattle.tensor_runner.specs.private.Kept.{IsKept, kept_len, kept_bytes};

use crate::engine::MOST_READ;
use crate::limits::Limits;
use std::alloc::Global;

/// What is kept of a text while it is read.
#[derive(Drop)]
pub(crate) enum KeptText {
    /// The first [`MOST_READ`] bytes of the text, or all if it has fewer. A text with that many is
    /// too long.
    Text(Vec<u8>),
    /// Only the number of these bytes, since there is no memory for them, or they are too many.
    Counted(usize),
}

/// Where a text is kept, and up to which length.
#[derive(Clone, Copy, Drop)]
pub(crate) struct Room {
    pub(crate) alloc: Global,
    /// The most bytes of a text that are kept.
    pub(crate) most: usize,
}

impl Room {
    /// Returns the room for a text under limits: no more bytes than the limit of bytes.
    pub(crate) fn of(alloc: Global, limits: Limits) -> Room
        ensures { IfSome limits.bytes (λ most. result.most ≤ most) }
    {
        match limits.bytes {
            None => Room {
                alloc,
                most: MOST_READ,
            },
            Some(most) => Room {
                alloc,
                most: most.min(MOST_READ as u64) as usize,
            },
        }
    }
}

impl KeptText {
    /// Returns what is kept of an empty text.
    pub(crate) fn new(alloc: Global) -> KeptText
        ensures { IsKept [] result }
    {
        KeptText::Text(Vec::new(alloc))
    }

    /// Returns how many bytes the text has so far, up to [`MOST_READ`].
    pub(crate) fn len(&self) -> usize
        ensures { result ≡ kept_len self.now }
    {
        match self {
            KeptText::Text(text) => text.len(),
            KeptText::Counted(count) => *count,
        }
    }

    /// Appends a piece of the text, as far as it is among the text's first [`MOST_READ`] bytes. If
    /// an allocation fails, or if the text has more than `most` bytes, only their number is kept
    /// from then on.
    pub(crate) fn keep(&mut self, piece: &[u8], most: usize)
        ensures few { kept_bytes self.new ≤ max (kept_bytes self.old) most }
        ensures kept { (text : List ℕ) → IsKept text self.old → IsKept (text ++ piece.now) self.new }
    {
        let length = self.len();
        let room = MOST_READ.saturating_sub(length).min(piece.len());
        if let KeptText::Text(text) = self {
            let all = length + room;
            if all <= most {
                if text.extend_from_slice(&piece[..room]).is_ok() {
                    return;
                }
            }
        }
        *self = KeptText::Counted(length + room);
    }
}
