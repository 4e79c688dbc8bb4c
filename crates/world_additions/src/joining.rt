//! The nodes that an addition makes.
ghost use Rattle.std.specs.Prelude.{◌≡◌, ◌≤◌, ℕ, None, Some, IfOk, IfErr, OnOk, OnErr, option_map, string_bytes};
ghost use Rattle.blk_base.specs.Pieces.{end_of};
ghost use Rattle.blk_nodes.specs.Nodes.{Nodes as SeenNodes};
ghost use Rattle.blk_nodes.specs.Overlays.{HasRoomForNode};
ghost use Rattle.qmp_codec.specs.Nodes.{seen_add_qcow2, seen_add_raw, seen_backing, seen_blockdev_add, seen_file_ref, seen_inline_file};
ghost use Rattle.qmp_asks.specs.Naming.{inline_name};
ghost use Rattle.qmp_asks.specs.NodeAsks.{is_read_only};
ghost use Rattle.world_additions.specs.Additions.{CanAdd, CanAddImage, CanAddPart, CanJoin, CanJoinAt, CanPutFilter, CanPutImage, CanPutPart};
ghost use Rattle.world_parts.specs.Joining.{HasAdded, HasAddedFile, HasAddedImage, HasAddedPart, IsFileAdded, HasFilter, HasImageNode, HasInline, HasJoined, HasJoinedAt, HasPart, qcow2_asked, backing_for, part_in};

use crate::opening::Out;
use crate::telling::{part_offset, part_size};
use blk_base::{Device, NoMemory, Span, Text};
use blk_graph::NodeId;
use blk_nodes::{AddStop, Backing, Nodes};
use q2_image::Image;
use qmp_codec::{
    AddQcow2, AddRaw, Added, BackingRef, BlockdevAdd, FileRef, InlineFile, NodeOptions,
};
use qmp_rules::Names;
use std::alloc::Global;

// ---- one node

/// Adds a `file` node over a device that is out. It is given back for want of memory.
fn put_file<D: Device>(
    nodes: &mut Nodes<D>,
    name: Text,
    out: Out<D>,
    read_only: bool,
) -> Result<NodeId, Out<D>>
    requires { HasRoomForNode nodes.old name.bytes }
    ensures ok { IfOk result (IsFileAdded name.bytes read_only out nodes.old nodes.new) }
    ensures back { IfErr result (λ back. back ≡ out) }
    ensures err { OnErr result (nodes.new ≡ nodes.old) }
{
    let Out { device, number } = out;
    match nodes.add_file(name, device, number, read_only) {
        Ok(node) => {
            let _ = nodes.edges();
            Ok(node)
        }
        Err((AddStop::NoMemory, device)) => Err(Out { device, number }),
        Err(_) => unreachable!(),
    }
}

/// Adds a node over a part of a `file` node.
fn put_part<D: Device>(
    nodes: &mut Nodes<D>,
    name: Text,
    file: NodeId,
    part: Span,
    read_only: bool,
) -> NodeId
    requires { CanPutPart nodes.old name.bytes read_only file part }
    ensures { HasPart name.bytes read_only file part nodes.old nodes.new result }
{
    match nodes.add_raw(name, file, part, read_only) {
        Ok(node) => {
            let _ = nodes.edges();
            node
        }
        Err(_) => unreachable!(),
    }
}

/// Adds a node over an open image.
fn put_image<D: Device>(
    nodes: &mut Nodes<D>,
    name: Text,
    file: NodeId,
    image: Image,
    backing: Backing,
    read_only: bool,
) -> NodeId
    requires { CanPutImage nodes.old
        (record { name = name.bytes; file = file; backing = backing; is_read_only = read_only })
        image }
    ensures { HasImageNode
        (record { name = name.bytes; file = file; backing = backing; is_read_only = read_only })
        image
        nodes.old nodes.new result }
{
    match nodes.add_image(name, file, image, backing, read_only) {
        Ok(node) => {
            let _ = nodes.edges();
            node
        }
        Err(_) => unreachable!(),
    }
}

/// Adds a node that copies what it reads.
fn put_filter<D: Device>(nodes: &mut Nodes<D>, name: Text, child: NodeId, read_only: bool) -> NodeId
    requires { CanPutFilter nodes.old name.bytes read_only child }
    ensures { HasFilter name.bytes read_only child nodes.old nodes.new result }
{
    match nodes.add_copy_on_read(name, child, read_only) {
        Ok(node) => {
            let _ = nodes.edges();
            node
        }
        Err(_) => unreachable!(),
    }
}

// ---- what a command says of nodes

fn is_read_only(options: &NodeOptions) -> bool
    ensures { result ≡ is_read_only options.now }
{
    match options.read_only {
        Some(is) => is,
        None => false,
    }
}

/// The name of a `file` node that is made with the node over it.
fn inline_name(alloc: Global, c: &BlockdevAdd, file: &InlineFile) -> Result<Text, NoMemory>
    ensures { IfOk result (λ name. name.bytes
        ≡ inline_name (seen_blockdev_add c.now).node_name (seen_inline_file file.now).node_name) }
{
    match &file.node_name {
        Some(own) => Text::copied(alloc, own.as_str()),
        None => {
            let mut name = Text::copied(alloc, "#")?;
            name.reserve(c.node_name.len())?;
            name.push_str(c.node_name.as_str());
            Ok(name)
        }
    }
}

/// The part of a file of so many bytes.
fn part_in(raw: &AddRaw, length: u64) -> Span
    requires { end_of (part_in (seen_add_raw raw.now) length) ≤ 9223372036854775808 }
    ensures { result ≡ part_in (seen_add_raw raw.now) length }
{
    Span {
        start: part_offset(raw.offset),
        len: part_size(raw.offset, raw.size, length),
    }
}

fn backing_for(names: &Names, added: &AddQcow2) -> Backing
    ensures { result ≡ backing_for names.now.table (seen_add_qcow2 added.now).backing }
{
    match &added.backing {
        None => Backing::Unsaid,
        Some(BackingRef::Null) => Backing::Null,
        Some(BackingRef::Name(name)) => match names.id_named(name.as_str()) {
            Some(node) => Backing::Node(node),
            None => Backing::Null,
        },
    }
}

/// The names of a node and of the `file` node that is made with it.
#[derive(Drop)]
struct TwoNames {
    own: Text,
    file: Text,
}

fn two_names(alloc: Global, c: &BlockdevAdd, file: &InlineFile) -> Result<TwoNames, NoMemory>
    ensures own { IfOk result (λ names. names.own.bytes ≡ (seen_blockdev_add c.now).node_name) }
    ensures file { IfOk result (λ names. names.file.bytes
        ≡ inline_name (seen_blockdev_add c.now).node_name (seen_inline_file file.now).node_name) }
{
    Ok(TwoNames {
        own: Text::copied(alloc, c.node_name.as_str())?,
        file: inline_name(alloc, c, file)?,
    })
}

// ---- the nodes of a command

/// Adds a `file` node alone.
fn add_file<D: Device>(
    alloc: Global,
    nodes: &mut Nodes<D>,
    c: &BlockdevAdd,
    out: Out<D>,
) -> Result<(), Out<D>>
    requires { HasRoomForNode nodes.old (seen_blockdev_add c.now).node_name }
    ensures ok { OnOk result
        (HasAddedFile (seen_blockdev_add c.now) (Some out) nodes.old nodes.new) }
    ensures back { IfErr result (λ back. back ≡ out) }
    ensures err { OnErr result (nodes.new ≡ nodes.old) }
{
    let Ok(name) = Text::copied(alloc, c.node_name.as_str()) else {
        return Err(out);
    };
    match put_file(nodes, name, out, is_read_only(&c.options)) {
        Ok(_) => Ok(()),
        Err(out) => Err(out),
    }
}

/// Adds a `file` node, and a node over a part of it.
fn add_file_part<D: Device>(
    alloc: Global,
    nodes: &mut Nodes<D>,
    c: &BlockdevAdd,
    raw: &AddRaw,
    file: &InlineFile,
    out: Out<D>,
) -> Result<(), Out<D>>
    requires { CanJoin (seen_blockdev_add c.now) (seen_inline_file file.now) out nodes.old
        (λ now node. CanPutPart now (seen_blockdev_add c.now).node_name
        (is_read_only (seen_blockdev_add c.now).options) node
        (part_in (seen_add_raw raw.now) out.size)) }
    ensures ok { OnOk result (HasJoined (seen_blockdev_add c.now) (seen_inline_file file.now) out
        nodes.old nodes.new
        (λ now under node. HasPart (seen_blockdev_add c.now).node_name
        (is_read_only (seen_blockdev_add c.now).options) under
        (part_in (seen_add_raw raw.now) out.size) now nodes.new node)) }
    ensures back { IfErr result (λ back. back ≡ out) }
    ensures err { OnErr result (nodes.new ≡ nodes.old) }
{
    let Ok(names) = two_names(alloc, c, file) else {
        return Err(out);
    };
    let length = out.device.length();
    let (own, name) = (names.own, names.file);
    match put_file(nodes, name, out, is_read_only(&file.options)) {
        Ok(node) => {
            let part = part_in(raw, length);
            put_part(nodes, own, node, part, is_read_only(&c.options));
            Ok(())
        }
        Err(out) => Err(out),
    }
}

/// Adds a `file` node, and a node over the image in it.
fn add_file_image<D: Device>(
    alloc: Global,
    nodes: &mut Nodes<D>,
    names: &Names,
    c: &BlockdevAdd,
    added: &AddQcow2,
    file: &InlineFile,
    out: Out<D>,
    image: Image,
) -> Result<(), Out<D>>
    requires { CanJoin (seen_blockdev_add c.now) (seen_inline_file file.now) out nodes.old
        (λ now node. CanPutImage now (qcow2_asked names.now.table (seen_blockdev_add c.now)
        (seen_add_qcow2 added.now) node) image) }
    ensures ok { OnOk result (HasJoined (seen_blockdev_add c.now) (seen_inline_file file.now) out
        nodes.old nodes.new
        (λ now under node. HasImageNode (qcow2_asked names.now.table (seen_blockdev_add c.now)
        (seen_add_qcow2 added.now) under)
        image now nodes.new node)) }
    ensures back { IfErr result (λ back. back ≡ out) }
    ensures err { OnErr result (nodes.new ≡ nodes.old) }
{
    let Ok(new_names) = two_names(alloc, c, file) else {
        return Err(out);
    };
    let backing = backing_for(names, added);
    let (own, name) = (new_names.own, new_names.file);
    match put_file(nodes, name, out, is_read_only(&file.options)) {
        Ok(node) => {
            put_image(nodes, own, node, image, backing, is_read_only(&c.options));
            Ok(())
        }
        Err(out) => Err(out),
    }
}

/// Adds a node over a part of a `file` node that is there.
fn add_part<D: Device>(
    alloc: Global,
    nodes: &mut Nodes<D>,
    names: &Names,
    c: &BlockdevAdd,
    raw: &AddRaw,
    file: &str,
) -> Result<(), NoMemory>
    requires { CanJoinAt names.now.table file.now (λ row. CanPutPart nodes.old
        (seen_blockdev_add c.now).node_name (is_read_only (seen_blockdev_add c.now).options) row.id
        (part_in (seen_add_raw raw.now) row.size)) }
    ensures ok { OnOk result (HasJoinedAt names.now.table file.now (λ row node. HasPart
        (seen_blockdev_add c.now).node_name (is_read_only (seen_blockdev_add c.now).options) row.id
        (part_in (seen_add_raw raw.now) row.size) nodes.old nodes.new node)) }
    ensures err { OnErr result (nodes.new ≡ nodes.old) }
{
    let Some(row) = names.node_named(file) else {
        unreachable!()
    };
    let part = part_in(raw, row.size);
    let name = Text::copied(alloc, c.node_name.as_str())?;
    put_part(nodes, name, row.id, part, is_read_only(&c.options));
    Ok(())
}

/// Adds a node over the image in a `file` node that is there.
fn add_image<D: Device>(
    alloc: Global,
    nodes: &mut Nodes<D>,
    names: &Names,
    c: &BlockdevAdd,
    added: &AddQcow2,
    file: &str,
    image: Image,
) -> Result<(), NoMemory>
    requires { CanJoinAt names.now.table file.now (λ row. CanPutImage nodes.old
        (qcow2_asked names.now.table (seen_blockdev_add c.now) (seen_add_qcow2 added.now) row.id)
        image) }
    ensures ok { OnOk result (HasJoinedAt names.now.table file.now (λ row node. HasImageNode
        (qcow2_asked names.now.table (seen_blockdev_add c.now) (seen_add_qcow2 added.now) row.id)
        image nodes.old nodes.new node)) }
    ensures err { OnErr result (nodes.new ≡ nodes.old) }
{
    let Some(row) = names.node_named(file) else {
        unreachable!()
    };
    let name = Text::copied(alloc, c.node_name.as_str())?;
    let backing = backing_for(names, added);
    put_image(
        nodes,
        name,
        row.id,
        image,
        backing,
        is_read_only(&c.options),
    );
    Ok(())
}

/// Adds a node that copies what it reads over a node that is there.
fn add_filter<D: Device>(
    alloc: Global,
    nodes: &mut Nodes<D>,
    names: &Names,
    c: &BlockdevAdd,
    child: &str,
) -> Result<(), NoMemory>
    requires { CanJoinAt names.now.table child.now (λ row. CanPutFilter nodes.old
        (seen_blockdev_add c.now).node_name
        (is_read_only (seen_blockdev_add c.now).options) row.id) }
    ensures ok { OnOk result (HasJoinedAt names.now.table child.now (λ row node. HasFilter
        (seen_blockdev_add c.now).node_name
        (is_read_only (seen_blockdev_add c.now).options) row.id nodes.old nodes.new node)) }
    ensures err { OnErr result (nodes.new ≡ nodes.old) }
{
    let Some(row) = names.node_named(child) else {
        unreachable!()
    };
    let name = Text::copied(alloc, c.node_name.as_str())?;
    put_filter(nodes, name, row.id, is_read_only(&c.options));
    Ok(())
}

/// Adds the nodes over a device that is out.
fn add_over_device<D: Device>(
    alloc: Global,
    nodes: &mut Nodes<D>,
    names: &Names,
    c: &BlockdevAdd,
    out: Out<D>,
    image: Option<Image>,
) -> Result<(), Out<D>>
    requires { CanAdd names.now.table (seen_blockdev_add c.now) (Some out) image nodes.old }
    ensures ok { OnOk result (HasAdded names.now.table (seen_blockdev_add c.now) (Some out) image
        nodes.old nodes.new) }
    ensures back { IfErr result (λ back. back ≡ out) }
    ensures err { OnErr result (nodes.new ≡ nodes.old) }
{
    match &c.driver {
        Added::File(_) => add_file(alloc, nodes, c, out),
        Added::Raw(raw) => match &raw.file {
            FileRef::Inline(file) => add_file_part(alloc, nodes, c, raw, file, out),
            FileRef::Name(_) => unreachable!(),
        },
        Added::Qcow2(added) => match (&added.file, image) {
            (FileRef::Inline(file), Some(image)) => {
                add_file_image(alloc, nodes, names, c, added, file, out, image)
            }
            _ => unreachable!(),
        },
        Added::CopyOnRead(_) | Added::Unknown => unreachable!(),
    }
}

/// Adds a node over nodes that are there.
fn add_over_nodes<D: Device>(
    alloc: Global,
    nodes: &mut Nodes<D>,
    names: &Names,
    c: &BlockdevAdd,
    image: Option<Image>,
) -> Result<(), NoMemory>
    requires { CanAdd names.now.table (seen_blockdev_add c.now) None image nodes.old }
    ensures ok { OnOk result (HasAdded names.now.table (seen_blockdev_add c.now) None image
        nodes.old nodes.new) }
    ensures err { OnErr result (nodes.new ≡ nodes.old) }
{
    match &c.driver {
        Added::Raw(raw) => match &raw.file {
            FileRef::Name(file) => add_part(alloc, nodes, names, c, raw, file.as_str()),
            FileRef::Inline(_) => unreachable!(),
        },
        Added::Qcow2(added) => match (&added.file, image) {
            (FileRef::Name(file), Some(image)) => {
                add_image(alloc, nodes, names, c, added, file.as_str(), image)
            }
            _ => unreachable!(),
        },
        Added::CopyOnRead(child) => add_filter(alloc, nodes, names, c, child.as_str()),
        Added::File(_) | Added::Unknown => unreachable!(),
    }
}

/// Adds the nodes of an addition, with the device that was taken out and the image that was opened for
/// it. The memory for both is taken before the first is added.
pub(crate) fn add_nodes<D: Device>(
    alloc: Global,
    nodes: &mut Nodes<D>,
    names: &Names,
    c: &BlockdevAdd,
    out: Option<Out<D>>,
    image: Option<Image>,
) -> Result<(), Option<Out<D>>>
    requires { CanAdd names.now.table (seen_blockdev_add c.now) out image nodes.old }
    ensures ok { OnOk result (HasAdded names.now.table (seen_blockdev_add c.now) out image
        nodes.old nodes.new) }
    ensures back { IfErr result (λ back. back ≡ out) }
    ensures err { OnErr result (nodes.new ≡ nodes.old) }
{
    match out {
        Some(out) => match add_over_device(alloc, nodes, names, c, out, image) {
            Ok(()) => Ok(()),
            Err(out) => Err(Some(out)),
        },
        None => match add_over_nodes(alloc, nodes, names, c, image) {
            Ok(()) => Ok(()),
            Err(_) => Err(None),
        },
    }
}
