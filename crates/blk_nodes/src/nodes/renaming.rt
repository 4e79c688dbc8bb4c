//! Another backing name for the image of a node.
ghost use Rattle.std.specs.Prelude.{◌≡◌, ◌<◌, ℕ, IsSome, None};
ghost use Rattle.std.specs.Option.{ForSome, option_copied};
ghost use Rattle.q2_format.specs.Created.{IsNewName, IsNewFormat};
ghost use Rattle.blk_nodes.specs.Contents.{disk_of};
ghost use Rattle.blk_nodes.specs.Copying.{IsBeside};
ghost use Rattle.blk_nodes.specs.Joined.{IsJoined};
ghost use Rattle.blk_nodes.specs.Nodes.{device_in};
ghost use Rattle.blk_nodes.specs.Parts.{IsImage, OfImage};
ghost use Rattle.blk_nodes.specs.Renaming.{OwnsImage, RenamesNode, RenamesRow};
ghost use Rattle.blk_nodes.specs.Walk.{IsKnownAt};
ghost use Rattle.blk_nodes.specs.Writing.{IsOverApart};

use crate::devices::Devices;
use crate::nodes::Nodes;
use crate::row::{Driver, Row};
use blk_base::{Device, Fault};
use blk_graph::{NodeId, Parent, Role};

/// Gives the image in a row another backing name.
fn rename_row<D: Device>(
    row: &mut Option<Row>,
    devices: &mut Devices<D>,
    file: NodeId,
    name: Option<&str>,
    format: Option<&str>,
) -> Result<(), Fault>
    requires held { IsSome (device_in devices.old file) }
    requires image { OfImage row.old (IsKnownAt file devices.old) }
    requires name { ForSome name (λ name. IsNewName name.now) }
    requires format { ForSome format (λ format. IsNewFormat format.now) }
    ensures { RenamesRow file row.old row.new devices.old devices.new (option_copied name.entry)
        (option_copied format.entry) result }
{
    let Some(taken) = row.take() else {
        unreachable!()
    };
    let Row {
        driver,
        size,
        is_read_only,
    } = taken;
    let Driver::Qcow2(mut image) = driver else {
        unreachable!()
    };
    let answer = devices.rename_image(file, &mut image, name, format);
    // looked at so that its type is known to keep what holds of an open image
    let _ = image.name_fits(None, None, 0);
    *row = Some(Row {
        driver: Driver::Qcow2(image),
        size,
        is_read_only,
    });
    answer
}

impl<D: Device> Nodes<D> {
    /// Gives the image of a qcow2 node another backing name, or none, and that file's format where it is known, as behind a commit
    /// whose top had a base of another name. Its file alone changes, and of that the header: the node reads as before, and so does
    /// every node that no path leads from to that file beside this one. A fault tells the file's device: Io where a call of it
    /// failed, and NoSpace where a write would end above its capacity, and then nothing was tried. Behind either the file has
    /// the name that it had. Whether the node may be written isn't asked. Takes no memory.
    pub fn rename(
        &mut self,
        node: NodeId,
        name: Option<&str>,
        format: Option<&str>,
    ) -> Result<(), Fault>
        requires image { IsImage self.old node }
        requires owns { OwnsImage self.old node }
        requires name { ForSome name (λ name. IsNewName name.now) }
        requires format { ForSome format (λ format. IsNewFormat format.now) }
        ensures renames { RenamesNode self.old self.new node (option_copied name.entry)
            (option_copied format.entry) result }
        ensures joined { IsJoined self.new }
        ensures disk { IsOverApart self.old node → disk_of self.new node ≡ disk_of self.old node }
        ensures disks { IsOverApart self.old node → (other : ℕ) → IsBeside self.old other node
            → disk_of self.new other ≡ disk_of self.old other }
    {
        let Some(file) = self.graph.child(Parent::Node(node), Role::File) else {
            unreachable!()
        };
        rename_row(
            &mut self.rows[node.index()],
            &mut self.devices,
            file,
            name,
            format,
        )
    }
}
