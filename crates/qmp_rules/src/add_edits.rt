//! The changes that an addition of nodes makes.
ghost use Rattle.std.specs.Prelude.{◌≡◌, ◌++◌, ◌∷◌, [], IfOk, OnOk, option_and_then, option_map, string_bytes, unwrap_or};
ghost use Rattle.qmp_rules.specs.Table.{id_named};
ghost use Rattle.qmp_codec.specs.Nodes.{seen_add_qcow2, seen_add_raw, seen_blockdev_add, seen_inline_file};
ghost use Rattle.qmp_rules.specs.Answers.{told_none};
ghost use Rattle.qmp_rules.specs.Edits.{add_edits, added_edits, free_id, goes_with, image_row, inline_row, next_free_id, qcow2_edits, raw_edits, raw_record};
ghost use Rattle.qmp_asks.specs.NodeAsks.{backing_name};
ghost use Rattle.qmp_asks.specs.Seen.{seen_text};

use crate::change::Change;
use crate::edits::{file_row, format_row, length_told, lowest, put};
use crate::rows::NodeRecord;
use crate::table::Names;
use crate::told::Told;
use blk_base::NoMemory;
use blk_graph::{Kind, NodeId};
use qmp_asks::{Name, backing_name, inline_name, is_read_only, maybe, part_offset, part_size};
use qmp_codec::{AddQcow2, AddRaw, Added, BlockdevAdd, FileRef, InlineFile};
use std::alloc::Global;

/// Two ids that no node has: the lowest, and the lowest but that one.
#[derive(Clone, Copy)]
struct FreeIds {
    first: NodeId,
    next: NodeId,
}

fn goes_with(id: NodeId, own: &Option<String>) -> Option<NodeId>
    ensures { result ≡ goes_with id (option_map string_bytes own.now) }
{
    match own {
        Some(_) => None,
        None => Some(id),
    }
}

fn image_size(told: &Told) -> u64
    ensures { result ≡ unwrap_or told.now.size 0 }
{
    match told.size {
        Some(size) => size,
        None => 0,
    }
}

fn put_format(
    edits: &mut Vec<Change>,
    row: NodeRecord,
    file: NodeId,
    backing: Option<NodeId>,
) -> Result<(), NoMemory>
    ensures { OnOk result
        (edits.new.items ≡ edits.old.items ++ Change.AddFormat row file backing ∷ []) }
{
    put(edits, Change::AddFormat { row, file, backing })
}

fn raw_row(
    alloc: Global,
    id: NodeId,
    name: &str,
    length: u64,
    read_only: bool,
    raw: &AddRaw,
) -> Result<NodeRecord, NoMemory>
    ensures { IfOk result
        (λ row. row ≡ raw_record id name.now length read_only (seen_add_raw raw.now)) }
{
    let size = part_size(raw.offset, raw.size, length);
    let name = Name::copied(alloc, name)?;
    Ok(format_row(
        Kind::Raw,
        id,
        name,
        size,
        part_offset(raw.offset),
        read_only,
    ))
}

fn image_row(
    alloc: Global,
    id: NodeId,
    told: &Told,
    name: &str,
    read_only: bool,
) -> Result<NodeRecord, NoMemory>
    ensures { IfOk result (λ row. row ≡ image_row id told.now name.now read_only) }
{
    let name = Name::copied(alloc, name)?;
    Ok(format_row(Kind::Qcow2, id, name, image_size(told), 0, read_only))
}

impl Names {
    /// Ids for two nodes that are added together. Where no id is free, no memory is to be had.
    fn free_ids(&self, alloc: Global) -> Result<FreeIds, NoMemory>
        ensures { IfOk result
            (λ free. free
            ≡ record { first = free_id self.now.table; next = next_free_id self.now.table }) }
    {
        let mut taken = self.ids(alloc)?;
        let first = lowest(taken.as_slice())?;
        taken.push(first)?;
        let next = lowest(taken.as_slice())?;
        Ok(FreeIds { first, next })
    }

    /// The node of a name that may be absent.
    fn maybe_id(&self, name: Option<&str>) -> Option<NodeId>
        ensures { result ≡ option_and_then (id_named self.now.table) (seen_text name.entry) }
    {
        match name {
            Some(name) => self.id_named(name),
            None => None,
        }
    }

    /// The file node that is made with the node over it, which comes next.
    fn inline_row(
        &self,
        alloc: Global,
        free: &FreeIds,
        told: &Told,
        name: &str,
        file: &InlineFile,
    ) -> Result<NodeRecord, NoMemory>
        requires { free.now
            ≡ record { first = free_id self.now.table; next = next_free_id self.now.table } }
        ensures { IfOk result
            (λ row. row ≡ inline_row self.now.table told.now name.now (seen_inline_file file.now)) }
    {
        file_row(
            alloc,
            free.first,
            inline_name(alloc, name, maybe(&file.node_name))?,
            length_told(told),
            is_read_only(&file.options),
            file.filename.as_str(),
            goes_with(free.next, &file.node_name),
        )
    }

    /// The file node that is made with the node over it.
    fn plan_inline(
        &self,
        alloc: Global,
        edits: &mut Vec<Change>,
        free: &FreeIds,
        told: &Told,
        name: &str,
        file: &InlineFile,
    ) -> Result<(), NoMemory>
        requires { free.now
            ≡ record { first = free_id self.now.table; next = next_free_id self.now.table } }
        ensures { OnOk result (edits.new.items ≡ edits.old.items
            ++ Change.AddFile
            (inline_row self.now.table told.now name.now (seen_inline_file file.now)) ∷ []) }
    {
        let row = self.inline_row(alloc, free, told, name, file)?;
        put(edits, Change::AddFile(row))
    }

    fn plan_raw_over(
        &self,
        alloc: Global,
        edits: &mut Vec<Change>,
        name: &str,
        read_only: bool,
        raw: &AddRaw,
        file: &str,
    ) -> Result<(), NoMemory>
        ensures { OnOk result (edits.new.items ≡ edits.old.items
            ++ raw_edits self.now.table told_none name.now read_only (seen_add_raw raw.now)
            (FileRef.Name file.now)) }
    {
        let id = self.free_id(alloc)?;
        let row = raw_row(alloc, id, name, self.size_of(file), read_only, raw)?;
        put_format(edits, row, self.id_of(file), None)
    }

    fn plan_raw_with(
        &self,
        alloc: Global,
        edits: &mut Vec<Change>,
        told: &Told,
        name: &str,
        read_only: bool,
        raw: &AddRaw,
        file: &InlineFile,
    ) -> Result<(), NoMemory>
        ensures { OnOk result (edits.new.items ≡ edits.old.items
            ++ raw_edits self.now.table told.now name.now read_only (seen_add_raw raw.now)
            (FileRef.Inline (seen_inline_file file.now))) }
    {
        let free = self.free_ids(alloc)?;
        self.plan_inline(alloc, edits, &free, told, name, file)?;
        let row = raw_row(alloc, free.next, name, length_told(told), read_only, raw)?;
        put_format(edits, row, free.first, None)
    }

    fn plan_raw(
        &self,
        alloc: Global,
        edits: &mut Vec<Change>,
        told: &Told,
        name: &str,
        read_only: bool,
        raw: &AddRaw,
    ) -> Result<(), NoMemory>
        ensures { OnOk result (edits.new.items ≡ edits.old.items
            ++ raw_edits self.now.table told.now name.now read_only (seen_add_raw raw.now)
            (seen_add_raw raw.now).file) }
    {
        match &raw.file {
            FileRef::Name(file) => {
                self.plan_raw_over(alloc, edits, name, read_only, raw, file.as_str())
            }
            FileRef::Inline(file) => {
                self.plan_raw_with(alloc, edits, told, name, read_only, raw, file)
            }
        }
    }

    fn plan_qcow2_over(
        &self,
        alloc: Global,
        edits: &mut Vec<Change>,
        told: &Told,
        name: &str,
        read_only: bool,
        backing: Option<&str>,
        file: &str,
    ) -> Result<(), NoMemory>
        ensures { OnOk result (edits.new.items ≡ edits.old.items
            ++ qcow2_edits self.now.table told.now name.now read_only (seen_text backing.entry)
            (FileRef.Name file.now)) }
    {
        let id = self.free_id(alloc)?;
        let row = image_row(alloc, id, told, name, read_only)?;
        put_format(edits, row, self.id_of(file), self.maybe_id(backing))
    }

    fn plan_qcow2_with(
        &self,
        alloc: Global,
        edits: &mut Vec<Change>,
        told: &Told,
        name: &str,
        read_only: bool,
        backing: Option<&str>,
        file: &InlineFile,
    ) -> Result<(), NoMemory>
        ensures { OnOk result (edits.new.items ≡ edits.old.items
            ++ qcow2_edits self.now.table told.now name.now read_only (seen_text backing.entry)
            (FileRef.Inline (seen_inline_file file.now))) }
    {
        let free = self.free_ids(alloc)?;
        self.plan_inline(alloc, edits, &free, told, name, file)?;
        let row = image_row(alloc, free.next, told, name, read_only)?;
        put_format(edits, row, free.first, self.maybe_id(backing))
    }

    fn plan_qcow2(
        &self,
        alloc: Global,
        edits: &mut Vec<Change>,
        told: &Told,
        name: &str,
        read_only: bool,
        image: &AddQcow2,
    ) -> Result<(), NoMemory>
        ensures { OnOk result (edits.new.items ≡ edits.old.items
            ++ qcow2_edits self.now.table told.now name.now read_only
            (backing_name (seen_add_qcow2 image.now).backing) (seen_add_qcow2 image.now).file) }
    {
        let backing = backing_name(&image.backing);
        match &image.file {
            FileRef::Name(file) => {
                self.plan_qcow2_over(alloc, edits, told, name, read_only, backing, file.as_str())
            }
            FileRef::Inline(file) => {
                self.plan_qcow2_with(alloc, edits, told, name, read_only, backing, file)
            }
        }
    }

    fn plan_file(
        &self,
        alloc: Global,
        edits: &mut Vec<Change>,
        told: &Told,
        name: &str,
        read_only: bool,
        filename: &str,
    ) -> Result<(), NoMemory>
        ensures { OnOk result (edits.new.items ≡ edits.old.items
            ++ added_edits self.now.table told.now name.now read_only (Added.File filename.now)) }
    {
        let (id, size) = (self.free_id(alloc)?, length_told(told));
        let name = Name::copied(alloc, name)?;
        let row = file_row(alloc, id, name, size, read_only, filename, None)?;
        put(edits, Change::AddFile(row))
    }

    fn plan_copy_on_read(
        &self,
        alloc: Global,
        edits: &mut Vec<Change>,
        name: &str,
        read_only: bool,
        file: &str,
    ) -> Result<(), NoMemory>
        ensures { OnOk result (edits.new.items ≡ edits.old.items
            ++ added_edits self.now.table told_none name.now read_only
            (Added.CopyOnRead file.now)) }
    {
        let (id, size) = (self.free_id(alloc)?, self.size_of(file));
        let name = Name::copied(alloc, name)?;
        let row = format_row(Kind::CopyOnRead, id, name, size, 0, read_only);
        let child = self.id_of(file);
        put(edits, Change::AddFilter { row, child })
    }

    /// What `blockdev-add` makes of the table.
    pub(crate) fn plan_add(
        &self,
        alloc: Global,
        edits: &mut Vec<Change>,
        told: &Told,
        c: &BlockdevAdd,
    ) -> Result<(), NoMemory>
        ensures { OnOk result (edits.new.items
            ≡ edits.old.items ++ add_edits self.now.table told.now (seen_blockdev_add c.now)) }
    {
        let name = c.node_name.as_str();
        let read_only = is_read_only(&c.options);
        match &c.driver {
            Added::File(filename) => {
                self.plan_file(alloc, edits, told, name, read_only, filename.as_str())
            }
            Added::Raw(raw) => self.plan_raw(alloc, edits, told, name, read_only, raw),
            Added::Qcow2(image) => self.plan_qcow2(alloc, edits, told, name, read_only, image),
            Added::CopyOnRead(file) => {
                self.plan_copy_on_read(alloc, edits, name, read_only, file.as_str())
            }
            Added::Unknown => Ok(()),
        }
    }
}
