//! The changes of the commands on bitmaps.
ghost use Rattle.std.specs.Prelude.{◌≡◌, ◌++◌, ◌∷◌, [], IfOk, OnOk};
ghost use Rattle.qmp_codec.specs.Bitmaps.{seen_bitmap_add, seen_bitmap_merge, seen_bitmap_name, seen_source};
ghost use Rattle.qmp_rules.specs.Edits.{bitmap_add_edits, bitmap_clear_edits, bitmap_remove_edits, bitmap_row, bitmap_turn_edits, merge_edits, merges};

use crate::change::Change;
use crate::edits::put;
use crate::rows::BitmapRow;
use crate::table::Names;
use blk_base::NoMemory;
use blk_graph::NodeId;
use qmp_asks::{Name, amount_or, flag_or_false, source_name, source_node};
use qmp_codec::{BitmapAdd, BitmapMerge, BitmapName, MergeSource};
use std::alloc::Global;

fn bitmap_row(alloc: Global, node: NodeId, c: &BitmapAdd) -> Result<BitmapRow, NoMemory>
    ensures { IfOk result (λ row. row ≡ bitmap_row node (seen_bitmap_add c.now)) }
{
    Ok(BitmapRow {
        node,
        name: Name::copied(alloc, c.name.as_str())?,
        granularity: amount_or(65_536, c.granularity),
        enabled: !flag_or_false(c.disabled),
        busy: None,
    })
}

impl Names {
    pub(crate) fn plan_bitmap_add(
        &self,
        alloc: Global,
        edits: &mut Vec<Change>,
        c: &BitmapAdd,
    ) -> Result<(), NoMemory>
        ensures { OnOk result (edits.new.items
            ≡ edits.old.items ++ bitmap_add_edits self.now.table (seen_bitmap_add c.now)) }
    {
        let node = self.id_of(c.node.as_str());
        put(edits, Change::AddBitmap(bitmap_row(alloc, node, c)?))
    }

    pub(crate) fn plan_bitmap_remove(
        &self,
        alloc: Global,
        edits: &mut Vec<Change>,
        c: &BitmapName,
    ) -> Result<(), NoMemory>
        ensures { OnOk result (edits.new.items
            ≡ edits.old.items ++ bitmap_remove_edits self.now.table (seen_bitmap_name c.now)) }
    {
        put(
            edits,
            Change::RemoveBitmap {
                node: self.id_of(c.node.as_str()),
                name: Name::copied(alloc, c.name.as_str())?,
            },
        )
    }

    pub(crate) fn plan_bitmap_clear(
        &self,
        alloc: Global,
        edits: &mut Vec<Change>,
        c: &BitmapName,
    ) -> Result<(), NoMemory>
        ensures { OnOk result (edits.new.items
            ≡ edits.old.items ++ bitmap_clear_edits self.now.table (seen_bitmap_name c.now)) }
    {
        put(
            edits,
            Change::ClearBitmap {
                node: self.id_of(c.node.as_str()),
                name: Name::copied(alloc, c.name.as_str())?,
            },
        )
    }

    pub(crate) fn plan_bitmap_turn(
        &self,
        alloc: Global,
        edits: &mut Vec<Change>,
        on: bool,
        c: &BitmapName,
    ) -> Result<(), NoMemory>
        ensures { OnOk result (edits.new.items
            ≡ edits.old.items ++ bitmap_turn_edits self.now.table on (seen_bitmap_name c.now)) }
    {
        put(
            edits,
            Change::TurnBitmap {
                node: self.id_of(c.node.as_str()),
                name: Name::copied(alloc, c.name.as_str())?,
                on,
            },
        )
    }

    fn plan_merge_of(
        &self,
        alloc: Global,
        edits: &mut Vec<Change>,
        c: &BitmapMerge,
        source: &MergeSource,
    ) -> Result<(), NoMemory>
        ensures { OnOk result (edits.new.items ≡ edits.old.items
            ++ merges self.now.table (seen_bitmap_merge c.now).node (seen_bitmap_merge c.now).target
            (seen_source source.now ∷ [])) }
    {
        put(
            edits,
            Change::MergeBitmap {
                node: self.id_of(c.node.as_str()),
                name: Name::copied(alloc, c.target.as_str())?,
                source_node: self.id_of(source_node(c.node.as_str(), source)),
                source: Name::copied(alloc, source_name(source))?,
            },
        )
    }

    /// One source after another.
    pub(crate) fn plan_merge(
        &self,
        alloc: Global,
        edits: &mut Vec<Change>,
        c: &BitmapMerge,
    ) -> Result<(), NoMemory>
        ensures { OnOk result (edits.new.items
            ≡ edits.old.items ++ merge_edits self.now.table (seen_bitmap_merge c.now)) }
    {
        for source in &c.bitmaps {
            self.plan_merge_of(alloc, edits, c, source)?;
        }
        Ok(())
    }
}
