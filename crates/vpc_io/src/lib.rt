//! The outside: where words and files come from and where text goes; files and text as traits, with
//! devices in memory and over the system.
#![tactic(auto)]

mod command_line;
mod file_shelf;
mod memory_shelf;
mod memory_sink;
mod shelf;
mod sink;
mod write_sink;

pub use command_line::words_of;
pub use file_shelf::{FileShelf, read_up_to};
pub use memory_shelf::{MemoryShelf, SafeShelf};
pub use memory_sink::{CountSink, MemorySink};
pub use shelf::{Shelf, ShelfFault};
pub use sink::{Sink, WriteFailed, put_all};
pub use write_sink::WriteSink;
