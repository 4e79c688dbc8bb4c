//! What of a command the store's files decide.
ghost use Rattle.std.specs.Prelude.{◌≡◌};
ghost use Rattle.qmp_asks.specs.Asking.{same_look};

/// What the store's files decide, in the order of the refusals.
#[derive(Clone, Copy, PartialEq, Eq)]
pub enum Look {
    /// Whether a part begins within the file that is opened.
    Begin,
    /// Whether it ends there.
    End,
    /// Whether the file can be opened, or made of that length.
    File,
    /// Whether the image in it is sound.
    Image,
    /// Whether the image names a backing file.
    Backing,
    /// Whether the image has the size of its backing node.
    Size,
    /// Whether a file node could be formatted.
    Format,
}

impl Look {
    /// Whether it is this one.
    pub fn is(self, other: Look) -> bool
        ensures { result ≡ same_look self other }
    {
        self == other
    }
}
