//! Laws of chains, and of runs of sectors.
ghost use Rattle.std.specs.Prelude.{◌≡◌, ◌⊎◌, ◌+◌, ◌*◌, ◌<◌, ◌≤◌, ◌%◌, ◌&&◌, ℕ, Option, Some, true, false, nat_lt};
ghost use Rattle.blk_base.specs.Content.{bytes_at};
ghost use Rattle.blk_base.specs.Pieces.{Extent};
ghost use Rattle.q2_format.specs.Contents.{image_disk};
ghost use Rattle.blk_nodes.specs.Contents.{bytes_of, disk_of, disk_under};
ghost use Rattle.blk_nodes.specs.Joined.{IsJoined};
ghost use Rattle.blk_nodes.specs.Nodes.{Nodes, AreTold, backing_of, file_of, node_size, row_at};
ghost use Rattle.blk_nodes.specs.Owning.{has_own};
ghost use Rattle.blk_nodes.specs.Parts.{IsImage};
ghost use Rattle.node_copies.specs.Between.{chain_end, is_held_between};
ghost use Rattle.node_copies.specs.Sectors.{has_sector, has_run, runs_of, sector_count};

/// The runs of a block's sectors have just those that are asked for, of those that the block has.
pub fn runs_are_those_asked()
    ensures { (block : Extent) (sectors sector : ℕ) → has_run (runs_of block sectors) sector
        ≡ (nat_lt sector (sector_count block) && has_sector sectors sector) }
{}

/// Where no node from one down to above a base has a place, it reads from there to the end of the block as the base; or as zeros, where
/// there is none.
pub fn chain_shows_base()
    ensures { (nodes : Nodes) (base : Option ℕ) (top place n : ℕ) → IsJoined nodes
        → AreTold nodes.devices → place % 65536 + n ≤ 65536 → place + n ≤ node_size nodes top
        → is_held_between nodes base top place ≡ false
        → bytes_at (disk_of nodes top) place n
        ≡ bytes_at (disk_under (disk_of nodes) (chain_end nodes base top)) place n }
{}

/// Once each block either is mapped by an image or is held by no node between it and a base below, the image over that base alone
/// reads as its node.
pub fn top_over_base_alone()
    ensures { (nodes : Nodes) (base : Option ℕ) (top below file : ℕ) → IsJoined nodes
        → AreTold nodes.devices → IsImage nodes top → file_of nodes top ≡ Some file
        → backing_of nodes top ≡ Some below → chain_end nodes base below ≡ base
        → ((block : ℕ) → block * 65536 < node_size nodes top
        → (has_own (block * 65536) (row_at nodes top) ≡ true)
        ⊎ (is_held_between nodes base below (block * 65536) ≡ false))
        → image_disk (bytes_of nodes file) (disk_under (disk_of nodes) base)
        ≡ disk_of nodes top }
{}
