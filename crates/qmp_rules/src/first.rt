//! The first ask of a list that is not met.
ghost use Rattle.std.specs.Prelude.{◌≡◌, IfOk};
ghost use Rattle.qmp_rules.specs.Asks.{first_unmet_ask, holds};
ghost use Rattle.qmp_asks.specs.Seen.{seen_ask, seen_asks};

use crate::refusal::{FileFault, Refusal};
use crate::refuse::{self, Found};
use crate::table::Names;
use crate::told::Told;
use crate::unmet;
use qmp_asks::Ask;
use std::alloc::Global;

impl Names {
    /// The refusal of an ask that is not met.
    #[tactic(auto, unfolding(crate::specs::Asks::holds))]
    fn unmet(&self, alloc: Global, told: &Told, ask: &Ask<&str>) -> Found
        ensures { IfOk result (λ found. found ≡ holds self.now.table told.now (seen_ask ask.now)) }
    {
        match ask {
            Ask::Good { member, ok } => refuse::bad_value(alloc, !*ok, member),
            Ask::Begins { file, offset } => self.begins(alloc, file, *offset),
            Ask::Ends { file, offset, size } => self.ends(alloc, file, *offset, *size),
            Ask::Files(look) => unmet::told_at(*look, told),
            Ask::Named { member, text } => unmet::named(alloc, member, *text),
            Ask::FileNamed { member, text } => unmet::file_named(alloc, member, *text),
            Ask::Found(name) => self.found(alloc, *name),
            Ask::Kept(id) => refuse::not_found(alloc, !self.is_kept(id), id, false),
            Ask::DeviceFound(id) => {
                refuse::not_found(alloc, self.device_named(id).is_none(), id, true)
            }
            Ask::BitmapFound { node, name } => self.bitmap_found(alloc, node, *name),
            Ask::JobFound(id) => refuse::not_active(alloc, self.job_named(id).is_none(), id),
            Ask::FreshNode(name) => self.fresh_node(alloc, *name),
            Ask::Apart { first, second } => unmet::apart(alloc, first, *second),
            Ask::FreshDevice(id) => refuse::name_taken(alloc, self.device_named(id).is_some(), id),
            Ask::FreshJob(id) => self.fresh_job(alloc, id),
            Ask::FreshBitmap { node, name } => {
                refuse::name_taken(alloc, self.bitmap_named(node, name).is_some(), name)
            }
            Ask::RoomForNodes(count) => self.room_for_nodes(*count),
            Ask::RoomForDevice => self.room_for_device(),
            Ask::RoomForJob => self.room_for_job(),
            Ask::RoomForBitmap => self.room_for_bitmap(),
            Ask::Drives { node, which } => self.drives(alloc, *node, *which),
            Ask::Closed(name) => refuse::file(alloc, self.is_open(name), name, FileFault::InUse),
            Ask::Fits { file, offset, size } => self.fits(alloc, file, *offset, *size),
            Ask::Known { file, is_raw } => self.known(alloc, *is_raw, file),
            Ask::KnownUnder { file, is_raw } => self.known_under(alloc, *is_raw, file),
            Ask::Settled(name) => self.settled(alloc, *name),
            Ask::Beside { backing, file } => unmet::beside(alloc, *backing, file),
            Ask::Unheld(node) => self.unheld(alloc, node),
            Ask::Free(nodes) => self.free(alloc, nodes),
            Ask::BitmapFree { node, name } => self.bitmap_free(alloc, node, *name),
            Ask::Writable(node) => self.writable(alloc, node),
            Ask::WritableUnder { file, read_only } => self.writable_under(alloc, file, *read_only),
            Ask::WritableWith { node, own, ok } => unmet::writable_with(alloc, node, *own, *ok),
            Ask::InChain(nodes) => self.in_chain(alloc, nodes),
            Ask::SameSize { first, second } => {
                unmet::differ(alloc, self.node_named(first), self.node_named(second))
            }
            Ask::EqualSizes(nodes) => self.equal_sizes(alloc, nodes),
            Ask::NoBacking(node) => self.no_backing(alloc, node),
            Ask::Empty(node) => refuse::not_empty(alloc, told.is_mapped(node), node),
            Ask::Lone(node) => self.lone(alloc, node),
            Ask::Clear(nodes) => self.clear(alloc, nodes),
            Ask::JobReady(id) => self.job_ready(alloc, id),
            Ask::Abort => Ok(Some(Refusal::Aborted)),
        }
    }

    /// The refusal of the first ask of a list that is not met.
    #[tactic(auto, using(crate::proofs::FirstLemmas::first_met, crate::proofs::FirstLemmas::first_unmet, crate::proofs::FirstLemmas::first_end))]
    pub(crate) fn first_unmet(&self, alloc: Global, told: &Told, asks: &[Ask<&str>]) -> Found
        ensures { IfOk result
            (λ found. found ≡ first_unmet_ask self.now.table told.now (seen_asks asks.now)) }
    {
        for ask in asks {
            match self.unmet(alloc, told, ask)? {
                Some(refusal) => return Ok(Some(refusal)),
                None => {}
            }
        }
        Ok(None)
    }
}
