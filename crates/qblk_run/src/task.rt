//! What the actors of a run have still to do.
ghost use Rattle.std.specs.Prelude.{◌≡◌, ◌++◌, [], None, option_to_list};
ghost use Rattle.std.specs.VecDeque.{deque_len};

use std::collections::VecDeque;
use std::marker::Model;
use trace_codec::{Order, Wish};

/// What a guest has still to do.
#[derive(Drop)]
pub(crate) struct Task {
    /// The first wish, where it was looked at; the others stand behind it.
    pub next: Option<Wish>,
    pub rest: VecDeque<Wish>,
    /// How many pieces of its request in flight are left.
    pub left: Option<u32>,
    pub is_done: bool,
}

impl Model for Task {
    ghost use Rattle.std.specs.Prelude.{◌++◌, option_to_list};
    ghost use Rattle.qblk_run.specs.Tasks.{Task as Seen};

    ghost Value = { Seen };

    ghost view = { λ t. record {
      wishes = option_to_list t.next ++ t.rest.items;
      left = t.left;
      is_done = t.is_done;
    } };
}

/// What the script has still to do.
#[derive(Drop)]
pub(crate) struct Script {
    /// The first line, where it was looked at; the others stand behind it.
    pub next: Option<Order>,
    pub rest: VecDeque<Order>,
    pub is_done: bool,
}

impl Model for Script {
    ghost use Rattle.std.specs.Prelude.{◌++◌, map, option_to_list};
    ghost use Rattle.trace_codec.specs.Script.{seen_order};
    ghost use Rattle.qblk_run.specs.Tasks.{ScriptTask as Seen};

    ghost Value = { Seen };

    ghost view = { λ s. record {
      orders = map seen_order (option_to_list s.next ++ s.rest.items);
      is_done = s.is_done;
    } };
}

/// Looks at the first of a list, where it wasn't looked at.
pub(crate) fn look<T: Drop>(next: &mut Option<T>, rest: &mut VecDeque<T>)
    ensures kept { option_to_list next.new ++ rest.new.items
        ≡ option_to_list next.old ++ rest.old.items }
    ensures seen { next.new ≡ None → rest.new.items ≡ [] }
{
    if next.is_none() {
        *next = rest.pop_front();
    }
}

/// What all actors have still to do.
#[derive(Drop)]
pub(crate) struct Actors {
    pub script: Script,
    /// By number.
    pub guests: Vec<Task>,
}

impl Model for Actors {
    ghost use Rattle.qblk_run.specs.Tasks.{Tasks as Seen};

    ghost Value = { Seen };

    ghost view = { λ a. record { script = a.script; guests = a.guests.items } };
}
