//! Laws of streams, each the contract of a function that does nothing.
ghost use Rattle.std.specs.Prelude.{◌≡◌, ◌≤◌, ◌^◌, ◌++◌, ℕ, Bool, List, [], ◌∷◌, true, false, option_map, Option, Some, None, Result};
ghost use Rattle.std.specs.List.{list_any};
ghost use Rattle.blk_base.specs.Pieces.{Extent};
ghost use Rattle.blk_base.specs.declared.fault.Fault.{Fault};
ghost use Rattle.blk_base.specs.declared.fault.Outcome.{Outcome};
ghost use Rattle.blk_graph.specs.Graph.{IsSoundGraph};
ghost use Rattle.blk_graph.specs.declared.edge.Edge.{Edge};
ghost use Rattle.blk_graph.specs.declared.kind.NodeKind.{NodeKind};
ghost use Rattle.q2_format.specs.Contents.{image_disk};
ghost use Rattle.blk_nodes.specs.Contents.{bytes_of, disk_of, disk_under};
ghost use Rattle.blk_nodes.specs.Copying.{IsBeside, ReadsPiece};
ghost use Rattle.blk_nodes.specs.Joined.{HasSize, IsJoined};
ghost use Rattle.blk_nodes.specs.Nodes.{Nodes, AreTold, backing_of, file_of, node_size, row_at};
ghost use Rattle.blk_nodes.specs.Parts.{IsImage};
ghost use Rattle.blk_nodes.specs.Renaming.{OwnsImage, RenamesNode};
ghost use Rattle.blk_nodes.specs.Rewiring.{AreKindsKept, AreReadings, IsWiring, rewired};
ghost use Rattle.blk_nodes.specs.Writing.{IsApartFrom, IsOverApart, LeavesNodes, MayWriteThrough};
ghost use Rattle.block_jobs.specs.Work.{JobWork, IsJobWork, all_left, begun, is_left};
ghost use Rattle.qmp_codec.specs.declared.event.JobKind.{JobKind};
ghost use Rattle.job_copies.specs.Passing.{PassesNext, is_streamed};
ghost use Rattle.chain_copies.specs.Commits.{AreLinkedIn};
ghost use Rattle.chain_copies.specs.Streams.{AreRebased, IsOverBase, IsRebased, IsStreamAhead, KeepsOwn};

/// Where nodes are linked by their backing children, the first is over the last.
pub fn links_lead_to_bases()
    ensures { (nodes : Nodes) (top base : ℕ) (between : List ℕ) → IsJoined nodes
        → AreLinkedIn nodes top (between ++ base ∷ []) → IsOverBase nodes top (Some base) }
{}

/// A stream begins with all left, and nothing to show for it.
pub fn streams_begin()
    ensures all { (nodes : Nodes) (top : ℕ) (base : Option ℕ) (work : JobWork) → IsJobWork work
        → IsStreamAhead nodes top base (all_left work) }
    ensures begun { (nodes : Nodes) (top : ℕ) (base : Option ℕ) (kind : JobKind) (job size : ℕ)
        → size ≤ 2 ^ 47 → IsStreamAhead nodes top base (all_left (begun kind job size 65536)) }
{}

/// No path leads to the file of a stream's top from its backing node or from the base: a write through the top leaves what these read as,
/// and so does another name in its header.
pub fn tops_are_apart()
    ensures over { (nodes : Nodes) (top : ℕ) → IsImage nodes top → MayWriteThrough nodes top
        → IsOverApart nodes top }
    ensures owns { (nodes : Nodes) (top : ℕ) → IsImage nodes top → MayWriteThrough nodes top
        → OwnsImage nodes top }
    ensures below { (nodes : Nodes) (top below : ℕ) → IsImage nodes top → MayWriteThrough nodes top
        → backing_of nodes top ≡ Some below → IsApartFrom nodes below top }
    ensures base { (nodes : Nodes) (top base : ℕ) → IsImage nodes top → MayWriteThrough nodes top
        → IsOverBase nodes top (Some base) → IsApartFrom nodes base top }
    ensures beside { (nodes : Nodes) (top other : ℕ) → IsImage nodes top
        → IsApartFrom nodes other top → IsBeside nodes other top }
{}

/// A node keeps its backing node and what it has of its own when any node is written, zeroed, read through copy-on-read, or renamed; and
/// when other edges are drawn.
pub fn nodes_keep_their_own()
    ensures written { (old new : Nodes) (node top : ℕ) → LeavesNodes old new node
        → KeepsOwn old new top }
    ensures read { (old new : Nodes) (node top : ℕ) (span : Extent) (bytes : List ℕ)
        (outcome : Outcome) → ReadsPiece old new node span bytes outcome
        → KeepsOwn old new top }
    ensures renamed { (old new : Nodes) (node top : ℕ) (name format : Option (List ℕ))
        (result : Result (Unit {0}) Fault) → RenamesNode old new node name format result
        → KeepsOwn old new top }
    ensures others { (old new : Nodes) (top : ℕ) → backing_of new top ≡ backing_of old top
        → option_map (λ row. row.driver) (row_at new top)
        ≡ option_map (λ row. row.driver) (row_at old top) → KeepsOwn old new top }
{}

/// A stream stays as far as it was where its top keeps what it has of its own, and the backing node and the base read as before: so it does
/// behind each write through the top. And it does where more is left.
pub fn streams_stay()
    ensures kept { (old new : Nodes) (top : ℕ) (base : Option ℕ) (work : JobWork)
        → KeepsOwn old new top
        → ((below : ℕ) → backing_of old top ≡ Some below
        → disk_of new below ≡ disk_of old below)
        → ((node : ℕ) → base ≡ Some node → disk_of new node ≡ disk_of old node)
        → IsStreamAhead old top base work → IsStreamAhead new top base work }
    ensures written { (old new : Nodes) (top : ℕ) (base : Option ℕ) (work : JobWork)
        → IsImage old top → MayWriteThrough old top → IsOverBase old top base
        → LeavesNodes old new top
        → ((other : ℕ) → IsApartFrom old other top → disk_of new other ≡ disk_of old other)
        → IsStreamAhead old top base work → IsStreamAhead new top base work }
    ensures more { (nodes : Nodes) (top : ℕ) (base : Option ℕ) (was now : JobWork)
        → now.size ≡ was.size
        → ((place : ℕ) → is_left was place ≡ true → is_left now place ≡ true)
        → IsStreamAhead nodes top base was → IsStreamAhead nodes top base now }
{}

/// A step of a stream goes on so, unless it met a fault.
pub fn streams_go_on()
    ensures { (old new : Nodes) (was now : JobWork) (top : ℕ) (base : Option ℕ) (answer : Bool)
        → IsJoined old → AreTold old.devices → IsJobWork was → IsImage old top
        → MayWriteThrough old top → node_size old top ≡ was.size → IsOverBase old top base
        → PassesNext (is_streamed old base top) old new was now top top answer
        → now.met ≡ None
        → IsStreamAhead old top base was → IsStreamAhead new top base now }
{}

/// It leaves what its top reads as, and what each node does from which no path leads to the top's file but through the top.
pub fn streams_leave_what_is_read()
    ensures top { (old new : Nodes) (was now : JobWork) (top : ℕ) (must : ℕ → Bool)
        (answer : Bool) → IsJoined old → AreTold old.devices → MayWriteThrough old top
        → node_size old top ≡ was.size → PassesNext must old new was now top top answer
        → disk_of new top ≡ disk_of old top }
    ensures others { (old new : Nodes) (was now : JobWork) (top other : ℕ) (must : ℕ → Bool)
        (answer : Bool) → IsJoined old → IsJoined new → AreTold old.devices → IsImage old top
        → MayWriteThrough old top → node_size old top ≡ was.size
        → PassesNext must old new was now top top answer → IsBeside old other top
        → disk_of new other ≡ disk_of old other }
{}

/// Once nothing is left the image of the top over the base alone reads as the top: so with the base as its backing node it reads as
/// before, and so does each other node.
pub fn streams_are_made()
    ensures alone { (nodes : Nodes) (top file : ℕ) (base : Option ℕ) (work : JobWork)
        → IsJoined nodes → AreTold nodes.devices → IsImage nodes top
        → file_of nodes top ≡ Some file → node_size nodes top ≡ work.size
        → list_any (λ part. part) work.left ≡ false → IsStreamAhead nodes top base work
        → image_disk (bytes_of nodes file) (disk_under (disk_of nodes) base)
        ≡ disk_of nodes top }
    ensures rewired { (nodes : Nodes) (kinds : List NodeKind) (edges : List Edge) (top : ℕ)
        (base : Option ℕ) → IsJoined nodes → AreRebased nodes.graph.edges edges top base
        → IsRebased nodes (rewired kinds edges nodes) top base }
    ensures rebased { (old new : Nodes) (top file : ℕ) (base : Option ℕ) → IsJoined old
        → IsImage old top → file_of old top ≡ Some file
        → image_disk (bytes_of old file) (disk_under (disk_of old) base) ≡ disk_of old top
        → IsRebased old new top base → AreReadings new (disk_of old) }
{}

/// The base has the top's size, so that the edges may be rewired so.
pub fn tops_fit_over_bases()
    ensures size { (nodes : Nodes) (top base size : ℕ) → IsJoined nodes → HasSize nodes top size
        → IsOverBase nodes top (Some base) → HasSize nodes base size }
    ensures wiring { (nodes : Nodes) (kinds : List NodeKind) (edges : List Edge) (top : ℕ)
        (base : Option ℕ) → IsJoined nodes → IsOverBase nodes top base
        → AreRebased nodes.graph.edges edges top base → AreKindsKept nodes kinds
        → IsSoundGraph (record nodes.graph { kinds = kinds; edges = edges })
        → IsWiring nodes kinds edges }
{}
