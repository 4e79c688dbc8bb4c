//! What a command's answer takes from elsewhere than the table.

ghost use Rattle.std.specs.Prelude.{◌≡◌};
ghost use Rattle.qmp_rules.specs.Table.{has_name};

use crate::refusal::Refusal;
use blk_base::Names1;
use qmp_asks::Look;
use std::alloc::Global;
use std::marker::Model;

/// A refusal that the files decide. A failed call stands in the place of what it would have told.
#[derive(Drop)]
pub struct Stopped {
    pub look: Look,
    pub refusal: Refusal,
}

/// Numbers, in order.
#[derive(Drop)]
pub struct Amounts {
    values: Vec<u64>,
}

impl Model for Amounts {
    ghost use Rattle.std.specs.Prelude.{List, ℕ};

    ghost Value = { List ℕ };

    ghost view = { λ a. a.values.items };
}

/// What files, images and bitmaps tell for a command.
#[derive(Drop)]
pub struct Told {
    /// The length of the file that the command opens.
    pub length: Option<u64>,
    /// The disk size of the image that it adds.
    pub size: Option<u64>,
    /// The first refusal that the files decide.
    pub stopped: Option<Stopped>,
    /// The nodes of the command whose images map a cluster, by name.
    pub mapped: Names1,
    /// For each bitmap of the table how many bytes its dirty granules have.
    pub dirty: Amounts,
}

impl Amounts {
    ghost use Rattle.std.specs.Prelude.{◌≡◌};

    /// The numbers of a vector, which is taken over with its memory.
    pub fn new(values: Vec<u64>) -> Self
        ensures { result ≡ values.items }
    {
        Amounts { values }
    }

    pub fn as_slice(&self) -> &[u64]
        ensures { result.now ≡ self.now }
    {
        self.values.as_slice()
    }
}

impl Told {
    ghost use Rattle.std.specs.Prelude.{◌≡◌};
    ghost use Rattle.qmp_rules.specs.Answers.{told_none};

    /// That nothing is told.
    pub fn nothing(alloc: Global) -> Self
        ensures { result ≡ told_none }
    {
        Told {
            length: None,
            size: None,
            stopped: None,
            mapped: Names1::from_vec(Vec::new(alloc)),
            dirty: Amounts::new(Vec::new(alloc)),
        }
    }

    /// Whether the image of this node maps a cluster.
    pub(crate) fn is_mapped(&self, node: &str) -> bool
        ensures { result ≡ has_name node.now self.now.mapped }
    {
        for place in 0..self.mapped.len() {
            if self.mapped.name_at(place) == node {
                return true;
            }
        }
        false
    }
}
