//! A dispatcher that looks for a queue with work, each time from another queue on.
//! `steal_walk/CALLING.md` quotes it.
ghost use Rattle.std.specs.Prelude.{◌≡◌, ◌^◌, ◌<◌, All, IfSome, IfNone, length, slice_index};

use steal_walk::{Coprimes, Walk};

/// Returns the first queue that is not empty, or `None`. `word` picks the order of a walk that
/// visits each queue once.
pub fn first_waiting(lengths: &[u64], coprimes: &Coprimes, word: u32) -> Option<u32>
    requires some { 0 < length lengths.now }
    requires few { length lengths.now < 2 ^ 32 }
    requires sized { coprimes.now ≡ length lengths.now }
    ensures inside { IfSome result (λ queue. queue < length lengths.now) }
    ensures waiting { IfSome result (λ queue. 0 < slice_index lengths.now queue) }
    ensures none { IfNone result (All (λ jobs. jobs ≡ 0) lengths.now) }
{
    for queue in Walk::of(word, 0, lengths.len() as u32, coprimes) {
        if lengths[queue as usize] > 0 {
            return Some(queue);
        }
    }
    None
}
