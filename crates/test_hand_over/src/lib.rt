//! What a node hands from thread to thread, handed over: each function moves values of some types into another thread and
//! back, lends them to two threads at once, and gives them back as they were.
//!
//! A proof of `Send` or `Sync` that a type has lost shows only where a value of it is first handed over. With this crate
//! that is here, and not in the node.
#![tactic(auto)]

mod crossing;
mod faults;
mod hubs;
mod lists;
mod messages;
mod positions;
mod stores;
#[cfg(test)]
mod tests;
mod walks;

pub use crossing::there_and_back;
pub use faults::{hand_byte_faults, hand_refusals, hand_text_faults};
pub use hubs::{hand_event, hand_hub, hand_node, hand_reply};
pub use lists::{hand_certificates, hand_lists, hand_slots, hand_sync};
pub use messages::{hand_command, hand_messages};
pub use positions::{hand_histories, hand_positions, hand_segments, hand_texts};
pub use stores::{hand_controls, hand_disk, hand_folder, hand_store, hand_store_status};
pub use walks::{hand_answers, hand_records, hand_walkers};
