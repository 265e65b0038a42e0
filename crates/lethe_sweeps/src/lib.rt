//! What a sweep makes of what is stored: laws that carry sweeps of a layout over to manifests and files. The functions do nothing: their contracts are the laws.
#![tactic(auto)]

mod laws;

pub use laws::{first_left_is_swept, sweep_follows, sweep_is_a_step, sweep_stays};
