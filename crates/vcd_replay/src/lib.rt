//! Samples waveforms at the edges of a clock, and tells where modules fail on such traces.
#![tactic(auto)]

mod edges;
mod laws;
mod ports;
mod samples;
mod sampling;
mod trace;
mod values;
mod verdicts;

pub use laws::{
    a_source_has_one_answer, a_stream_has_one_first_fail, extension_keeps_numbers,
    sampled_rows_fit, values_are_determined,
};
pub use sampling::sample;
pub use trace::{SampleError, Trace};
pub use verdicts::first_fail;
