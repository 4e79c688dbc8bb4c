//! An image that is created in a node's file.
ghost use Rattle.std.specs.Prelude.{◌≡◌, ◌≢◌, ℕ, ◌≤◌, None};
ghost use Rattle.std.specs.Option.{ForSome, option_copied};
ghost use Rattle.q2_format.specs.Created.{creation_of, IsNewName, IsNewFormat};
ghost use Rattle.q2_format.specs.declared.header.TheConstants.{MAX_DISK_SIZE};
ghost use Rattle.blk_graph.specs.Judged.{first_parent};
ghost use Rattle.blk_nodes.specs.Contents.{disk_of};
ghost use Rattle.blk_nodes.specs.Formatting.{IsFormatAt};
ghost use Rattle.blk_nodes.specs.Joined.{IsFile};

use crate::nodes::Nodes;
use crate::stop::FormatStop;
use blk_base::Device;
use blk_graph::NodeId;

impl<D: Device> Nodes<D> {
    /// Creates an image of `size` bytes in the file of a `file` node that no edge leads to, with the name of its backing file
    /// and that file's format where they are given. Other nodes read as before. After a stop the file is as it was, or no
    /// image.
    pub fn format_file(
        &mut self,
        node: NodeId,
        size: u64,
        backing_file: Option<&str>,
        backing_fmt: Option<&str>,
    ) -> Result<(), FormatStop>
        requires file { IsFile self.old node }
        requires lone { first_parent node self.old.graph.edges ≡ None }
        requires size { size ≤ MAX_DISK_SIZE }
        requires name { ForSome backing_file (λ name. IsNewName name.now) }
        requires format { ForSome backing_fmt (λ format. IsNewFormat format.now) }
        ensures formatted { IsFormatAt node self.old.devices self.new.devices
            (creation_of size (option_copied backing_file.entry) (option_copied backing_fmt.entry))
            result }
        ensures others { (other : ℕ) → other ≢ node
            → disk_of self.new other ≡ disk_of self.old other }
        ensures kept { self.new ≡ record self.old { devices = self.new.devices } }
    {
        self.devices
            .create_image(self.alloc, node, size, backing_file, backing_fmt)
    }
}
