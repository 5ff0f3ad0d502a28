//! What is kept of a frame while it is read, and the frame that answers it. `taking.rt` makes the
//! first and `answer.rt` the second; specs/private/Taking.antt and Answering.antt say what they
//! have.

ghost use Rattle.std.specs.Prelude.{◌<◌, length};
ghost use Rattle.std.specs.Option.{ForSome};

use expr_reader::{Fault, Tensor};
use std::alloc::Global;
use std::borrow::CowSlice;
use tensor_runner::AnyFault;

/// The first 16 bytes of a frame: the length of its header, and the number of its values.
#[derive(Clone, Copy, Debug, Drop, Eq, PartialEq)]
pub(crate) struct Head {
    /// The length of the header in bytes.
    pub(crate) header_len: u64,
    /// The number of values behind the header, 8 bytes each.
    pub(crate) value_count: u64,
}

impl Head {
    ghost use Rattle.std.specs.Prelude.{◌≡◌, ◌+◌, ◌*◌};

    /// Returns how many bytes the values of the frame have.
    pub(crate) fn values_len(self) -> u128
        ensures { result ≡ 8 * self.value_count }
    {
        8 * u128::from(self.value_count)
    }

    /// Returns how many bytes stand behind the head, in the header and the values.
    pub(crate) fn rest_len(self) -> u128
        ensures { result ≡ self.header_len + 8 * self.value_count }
    {
        u128::from(self.header_len) + self.values_len()
    }

    /// Returns how many bytes the whole frame has.
    pub(crate) fn frame_len(self) -> u128
        ensures { result ≡ 16 + (self.header_len + 8 * self.value_count) }
    {
        16 + self.rest_len()
    }
}

/// A frame of a request that was kept.
#[derive(Drop)]
pub(crate) struct WholeFrame {
    /// The header, which should be a request text without `data`.
    pub(crate) header: Vec<u8>,
    /// The values of all inputs, one input after the other.
    pub(crate) values: Vec<i64>,
}

/// A frame that was read and kept, or skipped.
#[derive(Drop)]
pub(crate) enum NextFrame {
    /// The frame that was kept.
    Whole(WholeFrame),
    /// The fault for which the frame was skipped, and the number of its bytes.
    Passed(Fault, u128),
}

impl NextFrame {
    ghost use Rattle.std.specs.Prelude.{◌≡◌, ℕ, List, length};
    ghost use Rattle.frame_server.specs.Frame.{IsWhole};
    ghost use Rattle.frame_server.specs.private.Taking.{IsKept};

    /// Returns how many bytes the frame has.
    pub(crate) fn len(&self) -> u128
        ensures { (bytes : List ℕ) → IsWhole bytes → IsKept bytes self.now
            → result ≡ length bytes }
    {
        match self {
            NextFrame::Whole(frame) => {
                let header = frame.header.len();
                let values = frame.values.len();
                16 + header as u128 + 8 * values as u128
            }
            NextFrame::Passed(_, len) => *len,
        }
    }
}

/// The frame that answers a frame, and what it says.
#[derive(Drop)]
pub(crate) struct AnswerFrame {
    /// The bytes before the values of `tensor`: the two sizes and the header, and the values of a
    /// tensor that has at most 8,192.
    pub(crate) front: CowSlice<'static, u8, Global>,
    /// The tensor whose values follow, or `None` if the front is all.
    pub(crate) tensor: Option<Tensor<'static>>,
    /// The fault that the frame says, or `None` if the frame has a tensor.
    pub(crate) fault: Option<AnyFault>,
    /// The steps of the request that the frame answers, if they are known.
    pub(crate) steps: Option<u128>,
    ghost many: { ForSome tensor (λ t. 8192 < length t.values) },
}

impl AnswerFrame {
    ghost use Rattle.std.specs.Prelude.{◌≡◌, length};
    ghost use Rattle.frame_server.specs.private.Answering.{bytes_in};

    /// Returns how many bytes the frame has.
    pub(crate) fn len(&self) -> u128
        ensures { result ≡ length (bytes_in self.now) }
    {
        let front = self.front.as_slice().len() as u128;
        match &self.tensor {
            Some(tensor) => front + 8 * tensor.values().len() as u128,
            None => front,
        }
    }
}
