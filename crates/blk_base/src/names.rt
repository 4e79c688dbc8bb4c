//! Lists of names.
ghost use Rattle.std.specs.Prelude.{◌≡◌, ◌<◌, [], length, get_or, map};

use crate::Text;
use std::marker::Model;

/// Names in order, as of the guests of a run.
#[derive(Debug, Drop)]
pub struct Names1 {
    names: Vec<Text>,
}

impl Model for Names1 {
    ghost use Rattle.std.specs.Prelude.{List, ℕ, map};

    ghost Value = { List (List ℕ) };

    ghost view = { λ n. map (λ t. t.bytes) n.names.items };
}

impl Names1 {
    /// The names of a vector, which is taken over with its memory.
    pub fn from_vec(names: Vec<Text>) -> Self
        ensures { result ≡ map (λ t. t.bytes) names.items }
    {
        Names1 { names }
    }

    pub fn len(&self) -> usize
        ensures { result ≡ length self.now }
    {
        self.names.len()
    }

    /// The name at a place, counted from 0.
    pub fn name_at(&self, place: usize) -> &str
        requires { place < length self.now }
        ensures { result.now ≡ get_or self.now place [] }
    {
        self.names[place].as_str()
    }
}
