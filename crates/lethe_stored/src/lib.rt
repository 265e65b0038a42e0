//! What a disk's greatest gate commits, and which history it is kept for. These are definitions and laws, no code.
#![tactic(auto)]

mod laws;

pub use laws::{
    append_keeps, clear_keeps, create_keeps, delete_follows, erase_follows, erase_is_pending,
    facts_are_of_the_header, freeze_follows, kept_files_rise, kept_holds_nothing_overdue,
    kept_means_its_history, new_store_is_kept, one_put_is_kept, one_stored, put_follows,
    switch_keeps, what_is_cited_counts,
};
