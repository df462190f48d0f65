//! What every crate stands on: text, lists and boxes that contracts see as plain values, the two refusals
//! that no input causes, and the outside as traits whose faults are counted.
#![tactic(auto)]

mod composed;
mod list_sink;
mod list_source;
mod memory;
mod one;
mod read_source;
mod seq;
mod sink;
mod source;
mod text;
mod try_copy;
mod write_sink;

pub use composed::{copy_option, copy_pair, copy_pairs};
pub use list_sink::ListSink;
pub use list_source::ListSource;
pub use memory::Memory;
pub use one::One;
pub use read_source::ReadSource;
pub use seq::Seq;
pub use sink::Sink;
pub use source::{Failed, Source};
pub use text::Text;
pub use try_copy::TryCopy;
pub use write_sink::WriteSink;
