//! What a merge reads.
ghost use Rattle.std.specs.Prelude.{◌≡◌};

use blk_base::Text;
use blk_graph::NodeId;
use std::marker::Model;

/// A bitmap by its node and its name.
#[derive(Debug, Drop)]
pub struct SourceBitmap {
    pub node: NodeId,
    pub name: Text,
}

/// The bitmaps that are merged into another, in order.
#[derive(Debug, Drop)]
pub struct Sources {
    sources: Vec<SourceBitmap>,
}

impl Model for Sources {
    ghost use Rattle.std.specs.Prelude.{List};
    ghost use Rattle.blk_bitmaps.specs.declared.sources.SourceBitmap.{SourceBitmap};

    ghost Value = { List SourceBitmap };

    ghost view = { λ s. s.sources.items };
}

impl Sources {
    /// The sources of a vector, which is taken over with its memory.
    pub fn from_vec(sources: Vec<SourceBitmap>) -> Self
        ensures { result ≡ sources.items }
    {
        Sources { sources }
    }

    pub fn as_slice(&self) -> &[SourceBitmap]
        ensures { result.now ≡ self.now }
    {
        self.sources.as_slice()
    }
}
