//! What each kind of change makes of the table. No memory is taken.
ghost use Rattle.std.specs.Prelude.{◌≡◌, ◌<◌, ℕ, Bool, List, OnOk, Option, length, true};
ghost use Rattle.qmp_codec.specs.declared.words.ImageFormat.{ImageFormat};
ghost use Rattle.qmp_rules.specs.Changes.{all_changed, changed, with_backing, with_backing_edge};
ghost use Rattle.std.specs.List.{list_all};
ghost use Rattle.blk_graph.specs.Edits.{IsLone};
ghost use Rattle.qmp_rules.specs.Ends.{is_of_event};
ghost use Rattle.qmp_rules.specs.Fitting.{AllChangesFit, ChangeFits, all_fit, fits};
ghost use Rattle.qmp_rules.specs.Room.{HasRoomForChanges, TakesLittle};

use crate::change::{Change, Edits};
use crate::edges::{ALL, NOTHING, drive_edge, job_edge, node_edge};
use crate::find;
use crate::rows::{DeviceRow, FileState, JobRecord, NodeRecord};
use crate::table::Names;
use blk_base::NoMemory;
use blk_graph::{JobUse, MOST_NODES, NodeId, Parent, Role};
use qmp_asks::Name;

impl Names {
    #[tactic(auto, unfolding(crate::specs::Changes::changed))]
    fn add_file(&mut self, row: NodeRecord)
        requires { HasRoomForChanges 1 self.old }
        ensures table { self.new.table ≡ changed self.old.table (Change.AddFile row) }
        ensures little { TakesLittle self.old self.new }
    {
        self.put_node(row);
        self.refresh();
    }

    /// Puts the edge to a backing node, where there is one.
    fn put_backing(&mut self, id: NodeId, backing: Option<NodeId>)
        ensures table { self.new.table
            ≡ record self.old.table { edges = with_backing_edge id backing self.old.table.edges } }
        ensures spare { self.new.spare ≡ self.old.spare }
    {
        prove!(id.index() < MOST_NODES);
        match backing {
            Some(backing) => self.put_edge(node_edge(id, Role::Backing, backing)),
            None => {}
        }
    }

    #[tactic(auto, unfolding(crate::specs::Changes::changed))]
    fn add_format(&mut self, row: NodeRecord, file: NodeId, backing: Option<NodeId>)
        requires { HasRoomForChanges 1 self.old }
        ensures table { self.new.table
            ≡ changed self.old.table (Change.AddFormat row file backing) }
        ensures little { TakesLittle self.old self.new }
    {
        let id = row.id;
        self.unsettle(file);
        self.put_node(row);
        prove!(id.index() < MOST_NODES);
        self.put_edge(node_edge(id, Role::File, file));
        self.put_backing(id, backing);
        self.refresh();
    }

    #[tactic(auto, unfolding(crate::specs::Changes::changed))]
    fn add_filter(&mut self, row: NodeRecord, child: NodeId)
        requires { HasRoomForChanges 1 self.old }
        ensures table { self.new.table ≡ changed self.old.table (Change.AddFilter row child) }
        ensures little { TakesLittle self.old self.new }
    {
        let id = row.id;
        self.put_node(row);
        prove!(id.index() < MOST_NODES);
        self.put_edge(node_edge(id, Role::File, child));
        self.refresh();
    }

    #[tactic(auto, unfolding(crate::specs::Changes::changed))]
    fn remove_node(&mut self, id: NodeId)
        ensures table { self.new.table ≡ changed self.old.table (Change.RemoveNode id) }
        ensures little { TakesLittle self.old self.new }
    {
        self.drop_node(id);
        self.drop_edges_of(Parent::Node(id));
        self.refresh();
        self.drop_bitmaps_of(id);
    }

    #[tactic(auto, unfolding(crate::specs::Changes::changed))]
    fn open_for_writing(&mut self, id: NodeId)
        ensures table { self.new.table ≡ changed self.old.table (Change.MakeWritable id) }
        ensures little { TakesLittle self.old self.new }
    {
        self.make_writable(id);
        self.refresh();
    }

    #[tactic(auto, unfolding(crate::specs::Changes::changed))]
    fn add_job_filter(&mut self, row: NodeRecord, node: NodeId)
        requires room { HasRoomForChanges 1 self.old }
        requires lone { IsLone self.old.table.edges row.id }
        ensures table { self.new.table ≡ changed self.old.table (Change.PutFilter row node) }
        ensures little { TakesLittle self.old self.new }
    {
        let id = row.id;
        self.put_node(row);
        self.put_filter(node, id, NOTHING, ALL);
        self.refresh();
    }

    #[tactic(auto, unfolding(crate::specs::Changes::changed))]
    fn use_node(&mut self, slot: u32, what: JobUse, node: NodeId)
        requires { slot < 16 }
        ensures table { self.new.table ≡ changed self.old.table (Change.UseNode slot what node) }
        ensures little { TakesLittle self.old self.new }
    {
        self.put_edge(job_edge(slot, what, node));
        self.refresh();
    }

    #[tactic(auto, unfolding(crate::specs::Changes::changed))]
    fn start_job(&mut self, row: JobRecord)
        requires { HasRoomForChanges 1 self.old }
        ensures table { self.new.table ≡ changed self.old.table (Change.StartJob row) }
        ensures little { TakesLittle self.old self.new }
    {
        self.take_bitmap(row.number, &row.bitmap, row.source);
        self.put_job(row);
    }

    #[tactic(auto, unfolding(crate::specs::Changes::changed))]
    fn end_job(&mut self, number: u32, slot: u32)
        ensures table { (drops : Bool)
            → self.new.table ≡ changed self.old.table (Change.EndJob number slot drops) }
        ensures little { TakesLittle self.old self.new }
    {
        self.drop_edges_of(Parent::Job(slot));
        self.refresh();
        self.drop_job(number);
        self.give_back_bitmaps(number);
    }

    #[tactic(auto, unfolding(crate::specs::Changes::changed))]
    fn pull_filter(&mut self, filter: NodeId)
        ensures table { self.new.table ≡ changed self.old.table (Change.PullFilter filter) }
        ensures little { TakesLittle self.old self.new }
    {
        self.drop_node(filter);
        self.drop_filter(filter);
        self.refresh();
    }

    /// Puts the edge to another backing node in its place, or takes it away.
    fn set_backing(&mut self, node: NodeId, backing: Option<NodeId>)
        ensures table { self.new.table
            ≡ record self.old.table { edges = with_backing node backing self.old.table.edges } }
        ensures spare { self.new.spare ≡ self.old.spare }
    {
        prove!(node.index() < MOST_NODES);
        match backing {
            Some(backing) => self.put_edge(node_edge(node, Role::Backing, backing)),
            None => self.drop_edge(Parent::Node(node), Role::Backing),
        }
    }

    #[tactic(auto, unfolding(crate::specs::Changes::changed))]
    fn rebase(&mut self, node: NodeId, backing: Option<NodeId>)
        ensures table { self.new.table ≡ changed self.old.table (Change.Rebase node backing) }
        ensures little { TakesLittle self.old self.new }
    {
        self.set_backing(node, backing);
        self.refresh();
    }

    #[tactic(auto, unfolding(crate::specs::Changes::changed))]
    fn close_for_writing(&mut self, id: NodeId)
        ensures table { self.new.table ≡ changed self.old.table (Change.MakeReadOnly id) }
        ensures little { TakesLittle self.old self.new }
    {
        self.make_read_only(id);
        self.refresh();
    }

    #[tactic(auto, unfolding(crate::specs::Changes::changed))]
    fn add_device(&mut self, device: DeviceRow, node: NodeId)
        requires room { HasRoomForChanges 1 self.old }
        requires number { device.number < 80 }
        ensures table { self.new.table ≡ changed self.old.table (Change.AddDevice device node) }
        ensures little { TakesLittle self.old self.new }
    {
        let edge = drive_edge(device.number, node, !device.read_only, device.share_rw);
        self.put_edge(edge);
        self.refresh();
        self.put_device(device);
    }

    #[tactic(auto, unfolding(crate::specs::Changes::changed))]
    fn remove_device(&mut self, number: u32)
        ensures table { self.new.table ≡ changed self.old.table (Change.RemoveDevice number) }
        ensures little { TakesLittle self.old self.new }
    {
        self.drop_edges_of(Parent::Guest(number));
        self.refresh();
        self.drop_device(number);
    }

    #[tactic(auto, unfolding(crate::specs::Changes::changed))]
    fn attach(&mut self, overlay: NodeId, node: NodeId)
        ensures table { self.new.table ≡ changed self.old.table (Change.Attach overlay node) }
        ensures little { TakesLittle self.old self.new }
    {
        prove!(overlay.index() < MOST_NODES);
        self.put_edge(node_edge(overlay, Role::Backing, node));
        self.refresh();
    }

    #[tactic(auto, unfolding(crate::specs::Changes::changed))]
    fn move_parents(&mut self, from: NodeId, to: NodeId, but: NodeId)
        ensures table { self.new.table ≡ changed self.old.table (Change.Move from to but) }
        ensures little { TakesLittle self.old self.new }
    {
        self.replace_edges(from, to, Parent::Node(but));
        self.refresh();
    }

    #[tactic(auto, unfolding(crate::specs::Changes::changed))]
    fn format_file(&mut self, node: NodeId, name: Name)
        requires { HasRoomForChanges 1 self.old }
        ensures table { (size : ℕ) (backing_file : Option (List ℕ))
            (backing_fmt : Option ImageFormat)
            → self.new.table
            ≡ changed self.old.table (Change.FormatFile node name size backing_file backing_fmt) }
        ensures little { TakesLittle self.old self.new }
    {
        self.unsettle(node);
        self.set_file(name, FileState::Formatted);
    }

    #[tactic(auto, unfolding(crate::specs::Changes::changed))]
    fn spoil_file(&mut self, name: Name)
        requires { HasRoomForChanges 1 self.old }
        ensures table { self.new.table ≡ changed self.old.table (Change.SpoilFile name) }
        ensures little { TakesLittle self.old self.new }
    {
        self.lose(name.as_str());
        self.set_file(name, FileState::Used);
    }

    /// Makes one change.
    #[tactic(auto, unfolding(crate::specs::Changes::changed))]
    fn change(&mut self, change: Change)
        requires room { HasRoomForChanges 1 self.old }
        requires fits { ChangeFits self.old.table change }
        ensures table { self.new.table ≡ changed self.old.table change }
        ensures little { TakesLittle self.old self.new }
    {
        match change {
            Change::Negotiate => self.negotiate(),
            Change::KeepId(id) => self.keep(id),
            Change::DropId(id) => self.drop_kept(id.as_str()),
            Change::MakeFile { name, .. } => self.set_file(name, FileState::Made),
            Change::FormatFile { node, name, .. } => self.format_file(node, name),
            Change::SpoilFile(name) => self.spoil_file(name),
            Change::UseFile(name) => self.set_file(name, FileState::Used),
            Change::AddFile(row) => self.add_file(row),
            Change::AddFormat { row, file, backing } => self.add_format(row, file, backing),
            Change::AddFilter { row, child } => self.add_filter(row, child),
            Change::RemoveNode(id) => self.remove_node(id),
            Change::Unsettle(id) => self.unsettle(id),
            Change::MakeWritable(id) => self.open_for_writing(id),
            Change::PutFilter { row, node } => self.add_job_filter(row, node),
            Change::UseNode { slot, what, node } => self.use_node(slot, what, node),
            Change::StartJob(row) => self.start_job(row),
            Change::AskJob { number, asked } => self.ask_job(number, asked),
            Change::ReadyJob(number) => self.ready_job(number),
            Change::EndJob { number, slot, .. } => self.end_job(number, slot),
            Change::PullFilter(filter) => self.pull_filter(filter),
            Change::Rebase { node, backing } => self.rebase(node, backing),
            Change::Settle { node, .. } => self.settle(node),
            Change::MakeReadOnly(id) => self.close_for_writing(id),
            Change::AddDevice { device, node } => self.add_device(device, node),
            Change::RemoveDevice(number) => self.remove_device(number),
            Change::Attach { overlay, node } => self.attach(overlay, node),
            Change::Move { from, to, but } => self.move_parents(from, to, but),
            Change::AddBitmap(row) => self.put_bitmap(row),
            Change::RemoveBitmap { node, name } => self.drop_bitmap(node, name.as_str()),
            Change::TurnBitmap { node, name, on } => self.turn_bitmap(node, name.as_str(), on),
            Change::ClearBitmap { .. } | Change::MergeBitmap { .. } => {}
        }
    }

    /// Whether a change fits the table.
    fn change_fits(&self, change: &Change) -> bool
        ensures { result ≡ fits self.now.table change.now }
    {
        match change {
            Change::AddDevice { device, .. } => device.number < 80,
            Change::UseNode { slot, .. } => *slot < 16,
            Change::PutFilter { row, .. } => !find::is_touched(self.edges(), row.id),
            _ => true,
        }
    }

    /// Makes changes, one after another, as far as they fit. Where one doesn't, the table is of no use any more.
    #[tactic(auto, using(crate::proofs::FitLemmas::fits_here, crate::proofs::FitLemmas::fits_then))]
    pub(crate) fn apply_fitting(&mut self, mut edits: Edits) -> Result<(), NoMemory>
        requires { HasRoomForChanges (length edits) self.old }
        ensures table { OnOk result (self.new.table ≡ all_changed self.old.table edits) }
        ensures fit { OnOk result (all_fit self.old.table edits ≡ true) }
    {
        while let Some(change) = edits.next() {
            if !self.change_fits(&change) {
                return Err(NoMemory);
            }
            self.change(change);
        }
        Ok(())
    }

    /// Makes one change of an event.
    #[tactic(auto, unfolding(crate::specs::Changes::changed))]
    fn change_at_event(&mut self, change: Change)
        requires { is_of_event change ≡ true }
        ensures { self.new.table ≡ changed self.old.table change }
    {
        match change {
            Change::ReadyJob(number) => self.ready_job(number),
            Change::EndJob { number, slot, .. } => self.end_job(number, slot),
            Change::PullFilter(filter) => self.pull_filter(filter),
            Change::Move { from, to, but } => self.move_parents(from, to, but),
            Change::Rebase { node, backing } => self.rebase(node, backing),
            Change::Settle { node, .. } => self.settle(node),
            Change::Unsettle(id) => self.unsettle(id),
            Change::MakeReadOnly(id) => self.close_for_writing(id),
            _ => unreachable!(),
        }
    }

    /// Makes the changes of an event of a job, one after another. Takes no memory.
    #[tactic(auto, using(crate::proofs::EndLemmas::event_here, crate::proofs::EndLemmas::events_then))]
    pub fn apply_event(&mut self, mut edits: Edits)
        requires { list_all is_of_event edits ≡ true }
        ensures { self.new.table ≡ all_changed self.old.table edits }
    {
        while let Some(change) = edits.next() {
            self.change_at_event(change);
        }
    }

    /// A job is ready from now on. Takes no memory.
    #[tactic(auto, unfolding(crate::specs::Changes::changed))]
    pub fn get_ready(&mut self, number: u32)
        ensures { self.new.table ≡ changed self.old.table (Change.ReadyJob number) }
    {
        self.ready_job(number);
    }

    /// Makes changes, one after another.
    pub fn apply(&mut self, mut edits: Edits)
        requires room { HasRoomForChanges (length edits) self.old }
        requires fit { AllChangesFit self.old.table edits }
        ensures { self.new.table ≡ all_changed self.old.table edits }
    {
        while let Some(change) = edits.next() {
            self.change(change);
        }
    }
}
