//! The commands on bitmaps.

ghost use Rattle.std.specs.Prelude.{◌≡◌, IfOk, codes, map};
ghost use Rattle.serde_json.specs.View.{view, items_view};
ghost use Rattle.serde_json.specs.Find.{get};
ghost use Rattle.qmp_codec.specs.Bitmaps.{seen_bitmap_add, bitmap_add_in, seen_bitmap_name, bitmap_name_in, seen_source, bitmap_source_in, sources_of, sources_or, seen_bitmap_merge, bitmap_merge_in};

use crate::fields::{Amount, maybe_amount, maybe_flag, text_at};
use serde_json::Value;
use std::alloc::{AllocError, Global};

/// `block-dirty-bitmap-add`.
#[derive(Drop)]
pub struct BitmapAdd<T = String> {
    pub node: T,
    pub name: T,
    pub granularity: Option<Amount>,
    pub persistent: Option<bool>,
    pub disabled: Option<bool>,
}

/// The bitmap of a command that names one.
#[derive(Drop)]
pub struct BitmapName<T = String> {
    pub node: T,
    pub name: T,
}

/// A bitmap that is merged: of the command's node, or of a node by its name.
#[derive(Drop)]
pub enum MergeSource<T = String> {
    Name(T),
    Of(BitmapName<T>),
}

/// `block-dirty-bitmap-merge`: the sources, in order, are merged into the target.
#[derive(Drop)]
pub struct BitmapMerge<T = String, S = Vec<MergeSource>> {
    pub node: T,
    pub target: T,
    pub bitmaps: S,
}

pub(crate) fn read_bitmap_add(alloc: Global, object: &Value) -> Result<BitmapAdd, AllocError>
    ensures { IfOk result (λ c. seen_bitmap_add c ≡ bitmap_add_in (view object.now)) }
{
    Ok(BitmapAdd {
        node: text_at(alloc, object, "node")?,
        name: text_at(alloc, object, "name")?,
        granularity: maybe_amount(object, "granularity"),
        persistent: maybe_flag(object, "persistent"),
        disabled: maybe_flag(object, "disabled"),
    })
}

pub(crate) fn read_bitmap_name(alloc: Global, object: &Value) -> Result<BitmapName, AllocError>
    ensures { IfOk result (λ c. seen_bitmap_name c ≡ bitmap_name_in (view object.now)) }
{
    Ok(BitmapName {
        node: text_at(alloc, object, "node")?,
        name: text_at(alloc, object, "name")?,
    })
}

fn read_source(alloc: Global, item: &Value) -> Result<MergeSource, AllocError>
    ensures { IfOk result (λ s. seen_source s ≡ bitmap_source_in (view item.now)) }
{
    match item {
        Value::String(name) => Ok(MergeSource::Name(name.clone()?)),
        _ => Ok(MergeSource::Of(read_bitmap_name(alloc, item)?)),
    }
}

#[tactic(auto, using(crate::proofs::Items::items_step, crate::proofs::Items::items_end, crate::proofs::Items::map_push))]
fn read_items(alloc: Global, items: &Vec<Value>) -> Result<Vec<MergeSource>, AllocError>
    ensures { IfOk result (λ v. map seen_source v.items ≡ sources_of (items_view items.now.items)) }
{
    let mut sources = Vec::with_capacity(alloc, items.len())?;
    for item in items {
        sources.push(read_source(alloc, item)?)?;
    }
    Ok(sources)
}

fn read_sources(alloc: Global, object: &Value) -> Result<Vec<MergeSource>, AllocError>
    ensures { IfOk result
        (λ v. map seen_source v.items ≡ sources_or (get (codes "bitmaps") (view object.now))) }
{
    match object.get("bitmaps") {
        Some(Value::Array(items)) => Ok(read_items(alloc, items)?),
        _ => Ok(Vec::new(alloc)),
    }
}

pub(crate) fn read_bitmap_merge(alloc: Global, object: &Value) -> Result<BitmapMerge, AllocError>
    ensures { IfOk result (λ c. seen_bitmap_merge c ≡ bitmap_merge_in (view object.now)) }
{
    Ok(BitmapMerge {
        node: text_at(alloc, object, "node")?,
        target: text_at(alloc, object, "target")?,
        bitmaps: read_sources(alloc, object)?,
    })
}
