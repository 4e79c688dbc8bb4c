//! The flat machine that histories are judged by: tables and flat disks, changed by entries alone. Definitions, in `specs/`.
#![tactic(auto)]

mod bitmap_laws;
mod laws;
mod opening;

pub use bitmap_laws::{uses_of_bitmaps, uses_of_bitmaps_stand};
pub use laws::{
    accepted_changes_can_be_made, changes_keep_disks, ends_keep_disks, guests_can_write,
    histories_keep_standing, inline_names_are_free, pieces_keep_disks, pieces_keep_standing,
    replies_keep_disks, replies_keep_standing, tables_stand, transcripts_have_one_history,
};
pub use opening::Opening;
