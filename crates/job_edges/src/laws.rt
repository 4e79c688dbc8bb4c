//! Laws of what edges ask and share while jobs run, and of what the ends of jobs leave of them. Each is the contract of a function
//! that does nothing.
ghost use Rattle.std.specs.Prelude.{◌≡◌, ◌≢◌, ℕ, Bool, true, false, List, ◌∷◌, ◌++◌, Contains};
ghost use Rattle.blk_graph.specs.declared.edge.Edge.{Edge};
ghost use Rattle.blk_graph.specs.declared.edge.Parent.TheVariants.{Guest, Job};
ghost use Rattle.blk_graph.specs.declared.edge.Role.TheVariants.{Drive, Backing};
ghost use Rattle.blk_graph.specs.declared.kind.NodeKind.{NodeKind};
ghost use Rattle.blk_graph.specs.Drafts.{WriteLess};
ghost use Rattle.blk_graph.specs.Paths.{Reaches};
ghost use Rattle.blk_graph.specs.Refreshed.{kind_at, refreshed};
ghost use Rattle.blk_graph.specs.Rule.{KeepsPermissions};
ghost use Rattle.job_edges.specs.Bounds.{AreNoMore, IsBound};
ghost use Rattle.job_edges.specs.Chains.{SharesReads, is_to_backing};
ghost use Rattle.job_edges.specs.Kinds.{is_open, is_hidden};
ghost use Rattle.job_edges.specs.Held.{EdgesStand, IsUnread, FilterStands, TargetStands, HasBacking, CommitStands, StreamStands, is_copiers};
ghost use Rattle.job_edges.specs.Ended.{AreOthers, job_gone, filter_gone, moved_to, rebased, unbacked};
ghost use Rattle.job_edges.specs.Copies.{Copied, AreApart};
ghost use Rattle.job_edges.specs.Seen.{CommitsStand, ReadsBy, ReadsAlong, GoesBelow, FiltersAlong};

/// What is derived from edges keeps the rule on permissions, where others that ask no less and share no more do.
pub fn bounded_edges_agree()
    ensures { (kinds : List NodeKind) (new bound : List Edge) → AreNoMore new bound
        → IsBound kinds bound → KeepsPermissions bound → KeepsPermissions (refreshed kinds new) }
{}

/// All edges let others read, but those of jobs and of format nodes to their files. Who asks to write asks to read, but for the
/// filters of commits.
pub fn open_edges_share_reads()
    ensures shares { (kinds : List NodeKind) (edges : List Edge) (e : Edge) → EdgesStand kinds edges
        → Contains edges e → is_open kinds e ≡ true → SharesReads e }
    ensures reads { (kinds : List NodeKind) (edges : List Edge) (e : Edge) → EdgesStand kinds edges
        → Contains edges e → is_hidden kinds e ≡ false → e.perm.write ≡ true
        → e.perm.read ≡ true }
{}

/// Where a job's edge lets nobody read a node, nobody else reads it or writes it, and all other edges into it let others read.
pub fn unread_nodes_are_the_jobs()
    ensures unread { (kinds : List NodeKind) (edges : List Edge) (node job : ℕ) (e : Edge)
        → EdgesStand kinds edges → IsUnread kinds edges node job → Contains edges e
        → e.child ≡ node → e.parent ≢ Job job
        → (e.perm.read ≡ false) × (e.perm.write ≡ false) }
    ensures shares { (kinds : List NodeKind) (edges : List Edge) (node job : ℕ) (e : Edge)
        → EdgesStand kinds edges → IsUnread kinds edges node job → Contains edges e
        → e.child ≡ node → e.parent ≢ Job job → SharesReads e }
{}

/// A job that had no filter ends, and a node loses its backing node, as with a stream of all that is below its top.
pub fn edges_go()
    ensures job { (kinds : List NodeKind) (edges : List Edge) (job : ℕ) → EdgesStand kinds edges
        → EdgesStand kinds (job_gone kinds job edges) }
    ensures backing { (kinds : List NodeKind) (edges : List Edge) (node : ℕ)
        → EdgesStand kinds edges → EdgesStand kinds (unbacked kinds node edges) }
{}

/// A backup ends, or a mirror without a pivot.
pub fn copies_end()
    ensures { (kinds after : List NodeKind) (edges : List Edge) (filter source job : ℕ)
        → EdgesStand kinds edges → FilterStands kinds edges filter source job
        → AreOthers kinds after filter → is_copiers (kind_at kinds filter).kind ≡ true
        → EdgesStand after (filter_gone kinds after job filter edges) }
{}

/// A mirror or a commit ends, and all that used its source uses its target or base. No cycle comes of it, and behind a mirror's
/// pivot the targets of the others don't lead to their sources either.
pub fn jobs_pivot()
    ensures stands { (kinds after : List NodeKind) (edges : List Edge)
        (filter source target job : ℕ) → EdgesStand kinds edges
        → FilterStands kinds edges filter source job
        → AreOthers kinds after filter → TargetStands kinds edges target source job
        → EdgesStand after (moved_to kinds after job filter source target edges) }
    ensures apart { (kinds after : List NodeKind) (edges : List Edge) (filter source target job : ℕ)
        (copies before later : List Copied) → EdgesStand kinds edges
        → FilterStands kinds edges filter source job → TargetStands kinds edges target source job
        → AreOthers kinds after filter
        → copies ≡ before ++ record { source = source; target = target } ∷ later
        → AreApart edges copies
        → AreApart (moved_to kinds after job filter source target edges) (before ++ later) }
{}

/// A commit fails or is cancelled.
pub fn commits_stop()
    ensures { (kinds after : List NodeKind) (edges : List Edge) (filter top base job : ℕ)
        (through : ℕ → Bool) → EdgesStand kinds edges → FilterStands kinds edges filter top job
        → AreOthers kinds after filter → CommitStands kinds edges through top base filter job
        → EdgesStand after (filter_gone kinds after job filter edges) }
{}

/// A commit ends whose top has an overlay: that gets the base as its backing node.
pub fn commits_complete()
    ensures { (kinds after : List NodeKind) (edges : List Edge) (filter top base overlay job : ℕ)
        (through : ℕ → Bool) → EdgesStand kinds edges → FilterStands kinds edges filter top job
        → AreOthers kinds after filter → CommitStands kinds edges through top base filter job
        → HasBacking edges overlay → Reaches edges overlay base
        → EdgesStand after (rebased after overlay base (filter_gone kinds after job filter edges)) }
{}

/// A stream ends: its top gets the base as its backing node.
pub fn streams_complete()
    ensures { (kinds : List NodeKind) (edges : List Edge) (top base job : ℕ)
        → EdgesStand kinds edges → StreamStands kinds edges top base job → HasBacking edges top
        → Reaches edges top base
        → EdgesStand kinds (rebased kinds top base (job_gone kinds job edges)) }
{}

/// Nodes may be written no more, as a base that a commit gives back.
pub fn nodes_are_given_back()
    ensures { (kinds after : List NodeKind) (edges : List Edge) → EdgesStand kinds edges
        → WriteLess kinds after → EdgesStand after (refreshed after edges) }
{}

/// What a guest that may write has below its filters, no other one has as a backing node or below that, also through the filters
/// of commits.
pub fn no_guest_writes_what_is_read()
    ensures { (kinds : List NodeKind) (edges : List Edge) (through : ℕ → Bool)
        (writer reader : Edge) (guest node : ℕ) (along down : List Edge) → EdgesStand kinds edges
        → CommitsStand kinds edges through → Contains edges writer → writer.parent ≡ Guest guest
        → writer.role ≡ Drive → writer.perm.write ≡ true
        → FiltersAlong kinds edges writer.child along node → Contains edges reader
        → reader.perm.read ≡ true → ReadsAlong kinds edges reader.child down node → GoesBelow down
        → ⊥ }
{}

/// Where a guest reads what a job lets nobody read, it does so by the backing edges of that job, which is a commit: from its top
/// down.
pub fn commits_alone_read_below()
    ensures through { (kinds : List NodeKind) (edges : List Edge) (through : ℕ → Bool)
        (reader e : Edge) (path : List Edge) (node job : ℕ) → EdgesStand kinds edges
        → CommitsStand kinds edges through → Contains edges reader → reader.perm.read ≡ true
        → ReadsAlong kinds edges reader.child path node → Contains edges e → ReadsBy kinds e node
        → IsUnread kinds edges e.child job → (through node ≡ true) × (e.role ≡ Backing) }
    ensures job { (kinds : List NodeKind) (edges : List Edge) (through : ℕ → Bool) (e : Edge)
        (job : ℕ) → EdgesStand kinds edges → (commits : CommitsStand kinds edges through)
        → (there : Contains edges e) → (is : is_to_backing through e ≡ true)
        → IsUnread kinds edges e.child job → (commits.leads e there is).0.0 ≡ job }
{}
