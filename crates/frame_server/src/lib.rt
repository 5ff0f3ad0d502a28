//! A server of frames: each request is a frame, with its tensors' values as 8-byte numbers behind a
//! JSON header, and so is each answer. docs/FRAMES.md defines the bytes, and README.md has the
//! picture.
#![tactic(auto)]

mod answer;
mod ending;
mod frame;
mod frame_protocol;
mod laws;
mod reading;
mod room;
mod server;
mod taking;
mod writing;

pub use ending::serve_frames;
pub use laws::{bytes_part_in_one_way, frames_are_read_as_written, no_limits_change_no_frame};
pub use server::answer_frames;
