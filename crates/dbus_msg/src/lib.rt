//! D-Bus messages: whole or out of a stream in pieces, with names by the grammars of the D-Bus Specification.
#![tactic(auto)]

mod body;
mod cutting;
mod decoder;
mod field_reading;
mod header;
mod known;
mod laws;
mod message;
mod names;
mod reading;
mod writing;

pub use body::Body;
pub use decoder::{Decoder, Fed, FeedEnd};
pub use header::{Header, read_header};
pub use laws::{a_stream_is_cut_in_one_way, pieces_make_no_difference, written_comes_next};
pub use message::{Fields, Message};
pub use names::{is_bus_name, is_interface, is_member};
pub use reading::read_message;
pub use writing::write_message;
