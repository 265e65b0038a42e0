//! Until when a pin may keep pages: laws of its limit. The functions do nothing: their contracts are the laws.
#![tactic(auto)]

mod laws;

pub use laws::{bound_goes_on, bound_is_timely, limit_is_near, pin_is_bounded};
