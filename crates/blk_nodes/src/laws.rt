//! Laws of the disks of nodes.
ghost use Rattle.std.specs.Prelude.{◌≡◌, ℕ, Bool, true};
ghost use Rattle.blk_nodes.specs.Contents.{disk_of};
ghost use Rattle.blk_nodes.specs.Joined.{IsJoined};
ghost use Rattle.blk_nodes.specs.Nodes.{Nodes};
ghost use Rattle.blk_nodes.specs.Through.{IsOrAsTop, LeavesAllBut};

/// A base that gets bytes which a node over it reads there leaves that node's disk, whatever the images between map, and whether
/// all of the bytes were written or some.
pub fn base_leaves_top()
    ensures { (old new : Nodes) (top base file : ℕ) (below : ℕ → Bool) → IsJoined old → IsJoined new
        → LeavesAllBut old new base file (λ n. below n ≡ true)
        → IsOrAsTop (disk_of old top) (disk_of old base) (disk_of new base) → below top ≡ true
        → disk_of new top ≡ disk_of old top }
{}
