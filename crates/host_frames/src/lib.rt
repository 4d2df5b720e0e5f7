//! What the processes of a pair say to each other: frames, their one spelling, and streams of them in any pieces; and the threads at the
//! two ends of a stream, one that reads frames and hands them on, one that writes those that it is given.
#![tactic(auto)]

mod buffer;
mod carried;
mod failures;
mod fields;
mod frame;
mod laws;
mod notices;
mod ranges;
mod read_thread;
mod reader;
mod reading;
mod report;
mod resting;
mod ring;
mod slots;
mod spelling;
mod stream_laws;
mod transfers;
mod write_thread;
mod writer;

pub use buffer::{BUFFER_BYTES, FrameBuffer};
pub use carried::CarriedBlocks;
pub use failures::{Deserted, ReadFailed, Unwritten, WriteFailed};
pub use frame::{Frame, Notice, Report, SIGHT_BYTES, Transfer};
pub use laws::{frames_spell_one_way, streams_come_out, streams_stand_apart};
pub use read_thread::{ReadEnd, ReadStream, Reading, ReadsAll, end_reading, start_reading};
pub use reader::{FrameReader, StreamEnd, read_frames};
pub use reading::frame_of;
pub use resting::{Rests, micros};
pub use spelling::{MOST_BYTES, spelled};
pub use stream_laws::blocks_come_back;
pub use write_thread::{WritesAll, Writing, WrittenStream, end_writing, start_writing};
pub use writer::{FrameWriter, write_frames};
