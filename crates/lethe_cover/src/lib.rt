//! Which history a store's layout stands for, step by step.
#![tactic(auto)]

mod changes;
mod jobs;

pub use changes::{
    blind_covers, change_covers, delete_covers, erase_covers, failed_covers, freeze_covers,
    put_covers, tick_covers,
};
pub use jobs::{
    first_merge_moves, flush_covers, merged_buffer_is_outcome, merged_is_outcome, move_covers,
    numbers_are_free, spent_erases_may_return, sweep_is_outcome,
};
