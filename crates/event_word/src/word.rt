//! The packed word of an event count and its four fields. `after.rt` computes with this layout, and
//! `specs/Fields.antt` states it.

ghost use Rattle.std.specs.Prelude.{◌≡◌};
ghost use Rattle.event_word.specs.Fields.{InRange, fields_of, word_of};

/// The four fields of an event word, from the lowest bit up: 14 bits each for the top, the
/// pre-waiters and the signals, and 22 bits for the epoch.
#[derive(Clone, Copy, Debug, PartialEq, Eq)]
pub struct Fields {
    /// The seat on top of the stack, or 16,383 if the stack is empty.
    pub top: u16,
    /// How many seats are between their prewait and their commit or cancel.
    pub pre: u16,
    /// How many of the pre-waiters have a signal from a notification.
    pub signals: u16,
    /// The epoch at which the top was pushed, or 0 if the stack is empty.
    pub epoch: u32,
}

/// The value of the field `top` if the stack is empty.
pub const NOBODY: u64 = 16_383;
/// One pre-waiter as a part of a word: a prewait adds it.
pub const PRE_WAITER: u64 = 1 << 14;
/// One signal as a part of a word.
pub(crate) const SIGNAL: u64 = 1 << 28;
/// One epoch as a part of a word.
pub(crate) const EPOCH: u64 = 1 << 42;

/// Packs the fields into a word.
pub const fn pack(fields: Fields) -> u64
    requires { InRange fields }
    ensures word { result ≡ word_of fields }
    ensures fields { fields_of result ≡ fields }
{
    fields.top as u64
        + fields.pre as u64 * PRE_WAITER
        + fields.signals as u64 * SIGNAL
        + fields.epoch as u64 * EPOCH
}

/// Unpacks the fields of a word.
pub const fn unpack(word: u64) -> Fields
    ensures fields { result ≡ fields_of word }
    ensures in_range { InRange result }
    ensures word { word_of result ≡ word }
{
    Fields {
        top: (word % PRE_WAITER) as u16,
        pre: (word / PRE_WAITER % PRE_WAITER) as u16,
        signals: (word / SIGNAL % PRE_WAITER) as u16,
        epoch: (word / EPOCH) as u32,
    }
}
