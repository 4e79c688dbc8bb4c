//! Writing the refcount table and the refcount block of a created image.

ghost use Rattle.std.specs.Prelude.{◌≡◌, ◌≤◌, ℕ, List, Option, length, slice_index};
ghost use Rattle.q2_format.specs.Created.{creation_of, HasCreatedTable, HasCreatedCounts};

use crate::header::MAX_DISK_SIZE;
use crate::layout::{CLUSTER_SIZE, CREATED_LENGTH, CREATED_REFCOUNT_BLOCK};
use crate::numbers::{put_u16, put_u64};

/// How many clusters a created image has.
const CREATED_CLUSTERS: u64 = CREATED_LENGTH / CLUSTER_SIZE;

/// Makes all bytes 0.
pub(crate) fn clear(out: &mut [u8])
    ensures { (i : ℕ) → slice_index out.new i ≡ 0 }
{
    out.fill(0);
}

/// Writes the refcount table of a created image: its first entry names the one block.
pub fn write_refcount_table(out: &mut [u8])
    requires { length out.old ≡ 65536 }
    ensures { (size : ℕ) (name format : Option (List ℕ)) → size ≤ MAX_DISK_SIZE
        → HasCreatedTable (creation_of size name format) out.new 0 }
{
    clear(out);
    put_u64(out, 0, CREATED_REFCOUNT_BLOCK);
}

/// Writes the refcount block of a created image: each of the image's clusters counts one, and no other.
pub fn write_refcount_block(out: &mut [u8])
    requires { length out.old ≡ 65536 }
    ensures { (size : ℕ) (name format : Option (List ℕ)) → size ≤ MAX_DISK_SIZE
        → HasCreatedCounts (creation_of size name format) out.new 0 }
{
    clear(out);
    for cluster in 0..CREATED_CLUSTERS as usize {
        put_u16(out, 2 * cluster, 1);
    }
}
