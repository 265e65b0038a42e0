//! The orders in which the files of a store's levels expire, and the first file that has.
#![tactic(auto)]

mod age;
mod building;
mod expired;
mod levels;
mod orders;

pub use expired::first_expired;
pub use orders::Orders;
