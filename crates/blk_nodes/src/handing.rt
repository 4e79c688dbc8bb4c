//! The devices when the nodes have ended.
ghost use Rattle.std.specs.Prelude.{◌≡◌, [], ◌∷◌, length, MatchOption};
ghost use Rattle.blk_nodes.specs.Handing.{device_state};

use crate::devices::Held;
use blk_base::{DevNo, Device};
use blk_graph::NodeId;
use std::collections::VecDeque;
use std::marker::Model;

/// The devices of nodes that have ended, to be handed out one by one in the order in which their nodes were added.
#[derive(Drop)]
pub struct DevicesLeft<D: Device> {
    left: VecDeque<Held<D>>,
}

impl<D: Device> Model for DevicesLeft<D> {
    ghost use Rattle.std.specs.Prelude.{List};
    ghost use Rattle.blk_nodes.specs.Nodes.{DeviceSeen};

    ghost Value = { List DeviceSeen };

    ghost view = { λ d. d.left.items };
}

impl<D: Device> DevicesLeft<D> {
    /// All of these, the first first.
    pub(crate) fn new(held: Vec<Held<D>>) -> Self
        ensures { result ≡ held.items }
    {
        DevicesLeft {
            left: VecDeque::from_vec(held),
        }
    }

    /// How many are left.
    pub fn len(&self) -> usize
        ensures { result ≡ length self.now }
    {
        self.left.len()
    }

    /// The next device, with its node and its number among the openings of the run; none once all are handed out.
    pub fn next(&mut self) -> Option<(NodeId, DevNo, D)>
        ensures { MatchOption result ((self.old ≡ []) × (self.new ≡ []))
            (λ next. self.old ≡ device_state D.Device next.0 next.1 next.2 ∷ self.new) }
    {
        match self.left.pop_front() {
            None => None,
            Some(held) => {
                let Held {
                    node,
                    number,
                    device,
                } = held;
                Some((node, number, device))
            }
        }
    }

    /// Ends it, once all are handed out.
    pub fn end(self)
        requires { self ≡ [] }
    {
        self.left.destroy_empty();
    }
}
