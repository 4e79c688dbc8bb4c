//! Laws of a commit's writes to its base, each the contract of a function that does nothing.
ghost use Rattle.std.specs.Prelude.{◌≡◌, ◌≢◌, ◌||◌, ◌++◌, ℕ, Bool, List, [], ◌∷◌, Option, Some, true, false, not, option_map};
ghost use Rattle.std.specs.List.{list_any};
ghost use Rattle.blk_nodes.specs.Contents.{disk_of};
ghost use Rattle.blk_nodes.specs.Joined.{IsJoined};
ghost use Rattle.blk_nodes.specs.Nodes.{Nodes, AreTold, backing_of, kind_in, node_size, row_at};
ghost use Rattle.blk_nodes.specs.Parts.{IsImage};
ghost use Rattle.blk_nodes.specs.Through.{IsOrAsTop};
ghost use Rattle.blk_nodes.specs.Writing.{IsApartFrom, LeavesNodes, MayWriteThrough};
ghost use Rattle.block_jobs.specs.Work.{JobWork};
ghost use Rattle.node_copies.specs.Between.{below_of, chain_end, nodes_between};
ghost use Rattle.job_copies.specs.Passing.{PassesNext};
ghost use Rattle.chain_copies.specs.Commits.{AreLinkedIn, PutsOfTop, is_written, reads_aside, reads_one_of, shares_file};

/// What a step of a commit writes to its base is what the top reads as there, be the write whole, torn or failed; and it writes no file
/// but the base's.
pub fn commits_put_of_their_tops()
    ensures { (must : ℕ → Bool) (old new : Nodes) (was now : JobWork) (top base : ℕ)
        (answer : Bool) → IsJoined old → AreTold old.devices → MayWriteThrough old base
        → node_size old base ≡ was.size → PassesNext must old new was now top base answer
        → PutsOfTop old new base top }
{}

/// So the top reads as before, and what another node above the base shows otherwise is as the top.
pub fn commits_leave_their_tops()
    ensures top { (old new : Nodes) (base top : ℕ) → IsJoined old → IsJoined new
        → MayWriteThrough old base → chain_end old (Some base) top ≡ Some base
        → PutsOfTop old new base top → disk_of new top ≡ disk_of old top }
    ensures between { (old new : Nodes) (base top node : ℕ) → IsJoined old → IsJoined new
        → MayWriteThrough old base → chain_end old (Some base) node ≡ Some base
        → PutsOfTop old new base top
        → IsOrAsTop (disk_of old top) (disk_of old node) (disk_of new node) }
{}

/// Each node that reads the base and its file through the top alone reads as before too.
pub fn commits_leave_what_reads_their_tops()
    ensures { (old new : Nodes) (base top node : ℕ) → IsJoined old → IsJoined new
        → MayWriteThrough old base → chain_end old (Some base) top ≡ Some base → top ≢ base
        → PutsOfTop old new base top → reads_aside old base top node ≡ false
        → disk_of new node ≡ disk_of old node }
{}

/// Several such steps are one.
pub fn commits_go_on()
    ensures { (old mid new : Nodes) (base top : ℕ) → disk_of mid top ≡ disk_of old top
        → PutsOfTop old mid base top → PutsOfTop mid new base top → PutsOfTop old new base top }
{}

/// The node at which a chain ends is as large as its top.
pub fn chains_are_of_one_size()
    ensures { (nodes : Nodes) (base : Option ℕ) (top end : ℕ) → IsJoined nodes
        → chain_end nodes base top ≡ Some end → node_size nodes end ≡ node_size nodes top }
{}

/// Where nodes are linked by their backing children, the upper ones are images, no one of them is the last, and the chain leads to that.
pub fn links_are_chains()
    ensures ends { (nodes : Nodes) (top base : ℕ) (between : List ℕ) → IsJoined nodes
        → AreLinkedIn nodes top (between ++ base ∷ [])
        → chain_end nodes (Some base) top ≡ Some base }
    ensures apart { (nodes : Nodes) (top base : ℕ) (between : List ℕ) → IsJoined nodes
        → AreLinkedIn nodes top (between ++ base ∷ []) → top ≢ base }
    ensures images { (nodes : Nodes) (node below : ℕ) → IsJoined nodes
        → backing_of nodes node ≡ Some below → IsImage nodes node }
{}

/// What a step leaves of the nodes, whichever node it wrote: the chains, the sizes, what each node is, and who reads beside a top, so
/// that the next step can be made.
pub fn steps_keep_chains()
    ensures ends { (old new : Nodes) (node top : ℕ) (base : Option ℕ) → LeavesNodes old new node
        → chain_end new base top ≡ chain_end old base top }
    ensures links { (old new : Nodes) (node top : ℕ) (ids : List ℕ) → LeavesNodes old new node
        → AreLinkedIn old top ids → AreLinkedIn new top ids }
    ensures sizes { (old new : Nodes) (node other : ℕ) → LeavesNodes old new node
        → node_size new other ≡ node_size old other }
    ensures kinds { (old new : Nodes) (node other : ℕ) → LeavesNodes old new node
        → option_map kind_in (row_at new other) ≡ option_map kind_in (row_at old other) }
    ensures below { (old new : Nodes) (node other : ℕ) → LeavesNodes old new node
        → below_of new other ≡ below_of old other }
    ensures may { (old new : Nodes) (node : ℕ) → LeavesNodes old new node
        → MayWriteThrough old node → MayWriteThrough new node }
    ensures aside { (old new : Nodes) (node base top other : ℕ) → LeavesNodes old new node
        → reads_aside new base top other ≡ reads_aside old base top other }
{}

/// Which nodes read aside: a node does where it is written, or a node does that it reads, and the top never does. So none does of nodes
/// that aren't written and read each other alone, or the top; none from which no path leads to the base's file; and none of whose chain,
/// down to above the top, no node shares that file.
pub fn reading_aside_is_told()
    ensures top { (nodes : Nodes) (base top : ℕ) → reads_aside nodes base top top ≡ false }
    ensures children { (nodes : Nodes) (base top node : ℕ) → IsJoined nodes → node ≢ top
        → reads_aside nodes base top node
        ≡ (is_written nodes base node || reads_one_of (reads_aside nodes base top) nodes node) }
    ensures among { (nodes : Nodes) (base top node : ℕ) (among : ℕ → Bool)
        → ((n : ℕ) → among n ≡ true → n ≢ top → (is_written nodes base n ≡ false)
        × (reads_one_of (λ child. not (among child)) nodes n ≡ false))
        → among node ≡ true → reads_aside nodes base top node ≡ false }
    ensures apart { (nodes : Nodes) (base top node : ℕ) → IsJoined nodes
        → MayWriteThrough nodes base → IsApartFrom nodes node base
        → reads_aside nodes base top node ≡ false }
    ensures chain { (nodes : Nodes) (base top node : ℕ) → IsJoined nodes
        → list_any (shares_file nodes base) (nodes_between nodes (Some top) node) ≡ false
        → reads_aside nodes base top node ≡ false }
{}
