//! Lines of the machine protocol: commands that are read, replies and events that are printed.
#![tactic(auto)]

mod bitmaps;
mod command;
mod event;
mod fields;
mod form;
mod jobs;
mod line;
mod nodes;
mod reply;
mod row;
mod stop;
mod tables;
mod unknown;
mod verb;
mod walk;
mod words;

pub use bitmaps::{BitmapAdd, BitmapMerge, BitmapName, MergeSource};
pub use command::{Action, Command, Transaction};
pub use event::{EventName, JobEvent, JobKind, print_event};
pub use fields::Amount;
pub use jobs::{Backup, Commit, JobOptions, Mirror, Stream};
pub use line::{asks_for_capabilities, read_command, read_id};
pub use nodes::{
    AddQcow2, AddRaw, Added, BackingRef, BlockdevAdd, BlockdevCreate, Cache, CreateFile,
    CreateQcow2, Created, DeviceAdd, FileRef, InlineFile, NodeOptions, Snapshot,
};
pub use reply::{Class, Reply, print_reply};
pub use stop::CodecStop;
pub use verb::Driver;
pub use words::{
    BitmapMode, CompletionMode, CopyMode, DeviceDriver, Discard, ImageFormat, OnError, Sharing,
    Sync, Version,
};
