//! Where the parts of a created image stand, behind its header's cluster. Each takes one cluster.

use crate::reading::CLUSTER_BITS;

/// The bytes of a cluster.
pub(crate) const CLUSTER_SIZE: u64 = 1 << CLUSTER_BITS;

/// Where a created image's refcount table stands.
pub const CREATED_REFCOUNT_TABLE: u64 = CLUSTER_SIZE;

/// Where its one refcount block stands.
pub const CREATED_REFCOUNT_BLOCK: u64 = 2 * CLUSTER_SIZE;

/// Where its L1 table stands, which is zeros.
pub const CREATED_L1_TABLE: u64 = 3 * CLUSTER_SIZE;

/// Where its last cluster ends.
pub const CREATED_LENGTH: u64 = 4 * CLUSTER_SIZE;
