//! Which images a read through copy-on-read maps, and what a row has of its own.
ghost use Rattle.std.specs.Prelude.{◌≡◌, ◌<◌, Some};
ghost use Rattle.blk_nodes.specs.Copying.{is_copy_on_read, is_unallocated, puts_below, shows_below_at};
ghost use Rattle.blk_nodes.specs.Joined.{IsSized};
ghost use Rattle.blk_nodes.specs.Owning.{has_own_by};
ghost use Rattle.q2_tables.specs.Entries.{entry_of};

use crate::row::{Driver, Row};
use q2_tables::Mapping;

fn is_unallocated(mapping: Mapping) -> bool
    ensures { result ≡ is_unallocated (entry_of mapping) }
{
    match mapping {
        Mapping::Unallocated => true,
        Mapping::Zero { .. } | Mapping::Host { .. } => false,
    }
}

/// Whether the row's image has nothing of its own at a place.
fn shows_below_at(row: &Row, place: u64) -> bool
    requires sized { IsSized row.now.size row.now.driver }
    requires inside { place < row.now.size }
    ensures { result ≡ shows_below_at place row.now.driver }
{
    match &row.driver {
        Driver::File | Driver::Raw(_) | Driver::CopyOnRead | Driver::Filter(_) => false,
        Driver::Qcow2(image) => is_unallocated(image.mapping(place / image.cluster_size())),
    }
}

fn is_copy_on_read(row: &Row) -> bool
    ensures { result ≡ is_copy_on_read row.now.driver }
{
    match &row.driver {
        Driver::File | Driver::Raw(_) | Driver::Qcow2(_) | Driver::Filter(_) => false,
        Driver::CopyOnRead => true,
    }
}

/// Whether a read through a node puts the cluster of a place into the node below.
pub(crate) fn puts_below(row: &Row, child: &Row, place: u64) -> bool
    requires sized { IsSized child.now.size child.now.driver }
    requires inside { place < child.now.size }
    ensures { result ≡ puts_below (Some row.now) (Some child.now) place }
{
    is_copy_on_read(row) && shows_below_at(child, place)
}

/// Whether a row has the bytes of a place itself.
pub(crate) fn has_own(row: &Row, place: u64) -> bool
    requires sized { IsSized row.now.size row.now.driver }
    requires inside { place < row.now.size }
    ensures { result ≡ has_own_by place row.now.driver }
{
    match &row.driver {
        Driver::File | Driver::Raw(_) => true,
        Driver::Qcow2(image) => !is_unallocated(image.mapping(place / image.cluster_size())),
        Driver::CopyOnRead | Driver::Filter(_) => false,
    }
}
