//! The ports through which a command reaches the outside: a shelf of files, an input and outputs, and a writer
//! that sends texts to an output through one buffer and takes no memory. docs/COMMANDS.md says which command
//! uses which. The memory ports are for tests: a call of theirs fails where it was asked to.
#![tactic(auto)]

mod calls;
mod count_sink;
mod files;
mod growing;
mod mem_shelf;
mod mem_sink;
mod mem_source;
mod no_input;
mod port;
mod reads;
mod write;
mod writer;

pub use count_sink::CountSink;
pub use growing::Growing;
pub use mem_shelf::MemShelf;
pub use mem_sink::MemSink;
pub use mem_source::MemSource;
pub use no_input::NoInput;
pub use port::{Failed, ReadError, Shelf, Sink, Source, WriteError};
pub use reads::{NO_READS, ReadCounts, after_read};
pub use write::write_all;
pub use writer::{Output, Writer};
