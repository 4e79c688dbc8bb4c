//! What the commands on bitmaps ask.
ghost use Rattle.std.specs.Prelude.{◌≡◌, ◌++◌, OnOk, map};
ghost use Rattle.qmp_codec.specs.Bitmaps.{seen_bitmap_add, seen_bitmap_merge, seen_bitmap_name, seen_source};
ghost use Rattle.qmp_asks.specs.BitmapAsks.{all_source_names, bitmap_add_names, bitmap_add_rest, bitmap_add_values, bitmap_names, bitmap_rest, merge_names, merge_rest, source_name, source_names, source_node, sources_equal, sources_found, sources_free};
ghost use Rattle.qmp_asks.specs.Seen.{seen_asks};

use crate::ask::Ask;
use crate::asks::{Asks, put};
use crate::values::{is_false, is_granularity};
use blk_base::NoMemory;
use qmp_codec::{BitmapAdd, BitmapMerge, BitmapName, MergeSource};

/// What `block-dirty-bitmap-add` asks of the values of its members.
pub(crate) fn put_bitmap_add_values<'x>(
    asks: &mut Asks<'x>,
    c: &'x BitmapAdd,
) -> Result<(), NoMemory>
    ensures { OnOk result (seen_asks asks.new.items
        ≡ seen_asks asks.old.items ++ bitmap_add_values (seen_bitmap_add c.now)) }
{
    put(
        asks,
        &[
            Ask::Good {
                member: "granularity",
                ok: is_granularity(c.granularity),
            },
            Ask::Good {
                member: "persistent",
                ok: is_false(c.persistent),
            },
        ],
    )
}

pub(crate) fn put_bitmap_add_names<'x>(
    asks: &mut Asks<'x>,
    c: &'x BitmapAdd,
) -> Result<(), NoMemory>
    ensures { OnOk result (seen_asks asks.new.items
        ≡ seen_asks asks.old.items ++ bitmap_add_names (seen_bitmap_add c.now)) }
{
    put(
        asks,
        &[
            Ask::Named {
                member: "node",
                text: Some(c.node.as_str()),
            },
            Ask::Named {
                member: "name",
                text: Some(c.name.as_str()),
            },
        ],
    )
}

pub(crate) fn put_bitmap_add_rest<'x>(asks: &mut Asks<'x>, c: &'x BitmapAdd) -> Result<(), NoMemory>
    ensures { OnOk result (seen_asks asks.new.items
        ≡ seen_asks asks.old.items ++ bitmap_add_rest (seen_bitmap_add c.now)) }
{
    put(
        asks,
        &[
            Ask::Found(Some(c.node.as_str())),
            Ask::FreshBitmap {
                node: c.node.as_str(),
                name: c.name.as_str(),
            },
            Ask::RoomForBitmap,
        ],
    )
}

/// What the commands that change one bitmap ask of its names.
pub(crate) fn put_bitmap_names<'x>(asks: &mut Asks<'x>, c: &'x BitmapName) -> Result<(), NoMemory>
    ensures { OnOk result (seen_asks asks.new.items
        ≡ seen_asks asks.old.items ++ bitmap_names (seen_bitmap_name c.now)) }
{
    put(
        asks,
        &[
            Ask::Named {
                member: "node",
                text: Some(c.node.as_str()),
            },
            Ask::Named {
                member: "name",
                text: Some(c.name.as_str()),
            },
        ],
    )
}

pub(crate) fn put_bitmap_rest<'x>(asks: &mut Asks<'x>, c: &'x BitmapName) -> Result<(), NoMemory>
    ensures { OnOk result (seen_asks asks.new.items
        ≡ seen_asks asks.old.items ++ bitmap_rest (seen_bitmap_name c.now)) }
{
    let node = c.node.as_str();
    let name = Some(c.name.as_str());
    put(
        asks,
        &[
            Ask::Found(Some(node)),
            Ask::BitmapFound { node, name },
            Ask::BitmapFree { node, name },
        ],
    )
}

/// The node of a source: that of the command, where it names none.
pub fn source_node<'x>(node: &'x str, source: &'x MergeSource) -> &'x str
    ensures { result.now ≡ source_node node.now (seen_source source.now) }
{
    match source {
        MergeSource::Name(_) => node,
        MergeSource::Of(bitmap) => bitmap.node.as_str(),
    }
}

/// The name of the bitmap that a source is.
pub fn source_name(source: &MergeSource) -> &str
    ensures { result.now ≡ source_name (seen_source source.now) }
{
    match source {
        MergeSource::Name(name) => name.as_str(),
        MergeSource::Of(bitmap) => bitmap.name.as_str(),
    }
}

fn put_source_names<'x>(asks: &mut Asks<'x>, source: &'x MergeSource) -> Result<(), NoMemory>
    ensures { OnOk result (seen_asks asks.new.items
        ≡ seen_asks asks.old.items ++ source_names (seen_source source.now)) }
{
    match source {
        MergeSource::Name(name) => put(
            asks,
            &[Ask::Named {
                member: "bitmaps",
                text: Some(name.as_str()),
            }],
        ),
        MergeSource::Of(bitmap) => put_bitmap_names(asks, bitmap),
    }
}

fn put_all_source_names<'x>(asks: &mut Asks<'x>, sources: &'x [MergeSource]) -> Result<(), NoMemory>
    ensures { OnOk result (seen_asks asks.new.items
        ≡ seen_asks asks.old.items ++ all_source_names (map seen_source sources.now)) }
{
    for source in sources {
        put_source_names(asks, source)?;
    }
    Ok(())
}

fn put_sources_found<'x>(
    asks: &mut Asks<'x>,
    node: &'x str,
    sources: &'x [MergeSource],
) -> Result<(), NoMemory>
    ensures { OnOk result (seen_asks asks.new.items
        ≡ seen_asks asks.old.items ++ sources_found node.now (map seen_source sources.now)) }
{
    for source in sources {
        let of = source_node(node, source);
        put(
            asks,
            &[
                Ask::Found(Some(of)),
                Ask::BitmapFound {
                    node: of,
                    name: Some(source_name(source)),
                },
            ],
        )?;
    }
    Ok(())
}

fn put_sources_free<'x>(
    asks: &mut Asks<'x>,
    node: &'x str,
    sources: &'x [MergeSource],
) -> Result<(), NoMemory>
    ensures { OnOk result (seen_asks asks.new.items
        ≡ seen_asks asks.old.items ++ sources_free node.now (map seen_source sources.now)) }
{
    for source in sources {
        let name = Some(source_name(source));
        put(
            asks,
            &[Ask::BitmapFree {
                node: source_node(node, source),
                name,
            }],
        )?;
    }
    Ok(())
}

fn put_sources_equal<'x>(
    asks: &mut Asks<'x>,
    node: &'x str,
    sources: &'x [MergeSource],
) -> Result<(), NoMemory>
    ensures { OnOk result (seen_asks asks.new.items
        ≡ seen_asks asks.old.items ++ sources_equal node.now (map seen_source sources.now)) }
{
    for source in sources {
        put(
            asks,
            &[Ask::SameSize {
                first: node,
                second: source_node(node, source),
            }],
        )?;
    }
    Ok(())
}

#[tactic(auto, using(std::proofs::lemmas::List::append_assoc))]
pub(crate) fn put_merge_names<'x>(asks: &mut Asks<'x>, c: &'x BitmapMerge) -> Result<(), NoMemory>
    ensures { OnOk result (seen_asks asks.new.items
        ≡ seen_asks asks.old.items ++ merge_names (seen_bitmap_merge c.now)) }
{
    put(
        asks,
        &[
            Ask::Named {
                member: "node",
                text: Some(c.node.as_str()),
            },
            Ask::Named {
                member: "target",
                text: Some(c.target.as_str()),
            },
        ],
    )?;
    put_all_source_names(asks, c.bitmaps.as_slice())
}

#[tactic(auto, using(std::proofs::lemmas::List::append_assoc))]
pub(crate) fn put_merge_rest<'x>(asks: &mut Asks<'x>, c: &'x BitmapMerge) -> Result<(), NoMemory>
    ensures { OnOk result (seen_asks asks.new.items
        ≡ seen_asks asks.old.items ++ merge_rest (seen_bitmap_merge c.now)) }
{
    let node = c.node.as_str();
    let name = Some(c.target.as_str());
    let sources = c.bitmaps.as_slice();
    put(
        asks,
        &[Ask::Found(Some(node)), Ask::BitmapFound { node, name }],
    )?;
    put_sources_found(asks, node, sources)?;
    put(asks, &[Ask::BitmapFree { node, name }])?;
    put_sources_free(asks, node, sources)?;
    put_sources_equal(asks, node, sources)
}
