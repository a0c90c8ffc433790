//! The edge of the program: ports, sinks, cabinets of files, and the errors of the outside.
#![tactic(auto)]

mod cabinet;
mod dir_cabinet;
mod error;
mod grow_port;
mod journal;
mod memory_cabinet;
mod memory_port;
mod memory_sink;
mod pending;
mod plan;
mod port;
mod sink;
mod stream;
mod stream_port;
mod stream_sink;
#[cfg(test)]
mod tests;
mod whole;

pub use cabinet::{Cabinet, FetchFault};
pub use dir_cabinet::DirCabinet;
pub use error::{Failed, NoMemory};
pub use grow_port::GrowPort;
pub use journal::Move;
pub use memory_cabinet::MemoryCabinet;
pub use memory_port::MemoryPort;
pub use memory_sink::MemorySink;
pub use pending::Pending;
pub use port::Port;
pub use sink::Sink;
pub use stream_port::{StdPort, StreamPort};
pub use stream_sink::{StdSink, StreamSink};
pub use whole::{read_exact_or_end, tell_whole, write_whole};
