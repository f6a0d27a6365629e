//! The outside: inputs, sinks, and the calls that read and write whole texts.
#![tactic(auto)]

mod device;
mod memory_inputs;
mod memory_sink;
mod pieces;
mod reading;
mod slot_faults;
mod std_inputs;
mod std_sink;
mod writing;

pub use device::{Failed, Inputs, Sink};
pub use memory_inputs::MemoryInputs;
pub use memory_sink::MemorySink;
pub use pieces::pieces_make_a_text;
pub use reading::{ReadError, read_all};
pub use std_inputs::StdInputs;
pub use std_sink::StdSink;
pub use writing::write_all;

#[cfg(test)]
mod tests;
