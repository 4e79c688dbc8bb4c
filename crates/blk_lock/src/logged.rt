ghost use Rattle.std.specs.Prelude.{◌≡◌, ℕ, List, Option, length};
ghost use Rattle.blk_base.specs.declared.memory.Room.{Room};

/// A value that keeps a history of its own, and room for more of it.
///
/// Its meanings are its history; of each entry the actor that makes it, a number, or none; the room that it has to spare; and whether it comes of an opening, which is plain data. They have no laws: `put` asks what the lock needs.
pub trait Logged {
    type Entry;

    type Opening;

    ghost history: { Self → List Self.Entry };

    ghost actor: { Self.Entry → Option ℕ };

    ghost spare: { Self → Room };

    ghost comes: { Self → Self.Opening → Type 0 };

    /// How many entries its history has.
    fn entries(&self) -> u64
        ensures { result ≡ length (history self.now) };
}
