//! The header, the extensions and the table entries of qcow2 images, version 3.
#![tactic(auto)]

mod entries;
mod extensions;
mod header;
mod laws;
mod layout;
mod numbers;
mod reading;
mod refcounts;
mod renaming;
mod writing;

pub use entries::{L2Entry, l2_word, read_l2};
pub use header::{
    Header, HeaderStop, MAX_DISK_SIZE, MAX_FILE_CLUSTERS, MAX_GUEST_CLUSTERS, MAX_L1_SIZE,
    MAX_NAME_LENGTH, MAX_REFCOUNT_TABLE_CLUSTERS, MIN_HEADER_LENGTH, Place,
};
pub use laws::{
    created_headers_read_back, created_images_are_sound, created_images_map_nothing,
    l2_entries_have_one_word, sound_images_are_consistent,
};
pub use layout::{
    CREATED_L1_TABLE, CREATED_LENGTH, CREATED_REFCOUNT_BLOCK, CREATED_REFCOUNT_TABLE,
};
pub use reading::read_header;
pub use refcounts::{write_refcount_block, write_refcount_table};
pub use renaming::{
    ending_place, format_bytes, format_room, name_fields, new_name_offset, renamed,
};
pub use writing::write_header;
