//! Why tables are not loaded.

ghost use Rattle.std.specs.Prelude.{◌≡◌};
ghost use Rattle.q2_tables.specs.declared.stop.TablesStop.TheVariants.{NoMemory};

use std::alloc::AllocError;

/// Why the tables of an image are not loaded. The file is as before.
#[derive(Clone, Copy, Debug, PartialEq, Eq)]
pub enum TablesStop {
    /// This offset, of the L1 table, of an L2 table or of a host cluster, isn't a multiple of the cluster size or
    /// isn't below the file's length. The L1 table's is named also where it has fewer entries than the disk needs.
    Offset(u64),
    /// A reserved bit is set in this entry of the L1 table.
    ReservedInL1 { index: u64 },
    /// A reserved bit is set in this entry of the L2 table at the offset `table`.
    ReservedInL2 { table: u64, index: u64 },
    /// This guest cluster is compressed, and none below it.
    Compressed(u64),
    /// A read failed; the device's count of faults afterwards.
    Io { count: u64 },
    /// Memory was asked for and not had.
    NoMemory,
}

impl From<AllocError> for TablesStop {
    ghost from_gives = { λ _ stop. stop ≡ NoMemory };

    fn from(_: AllocError) -> Self {
        TablesStop::NoMemory
    }
}
