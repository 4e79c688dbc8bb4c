//! The room that a run needs of its history.
ghost use Rattle.std.specs.Prelude.{◌≡◌, ◌+◌, ◌<◌, ◌^◌, ◌∷◌, [], length, IfSome, IfNone, map};
ghost use Rattle.qblk_inputs.specs.Room.{entries_for, bytes_for, HaveNumbers, CanCount, IsRoomFor, HoldsMore, CanHaveRoom};

use blk_base::Room;
use trace_codec::Wish;

/// The room with that of one wish more.
fn with_wish(room: Room, wish: &Wish) -> Option<Room>
    ensures entries { IfSome result (λ r.
        r.entries ≡ room.entries + entries_for (wish.now ∷ [])) }
    ensures bytes { IfSome result (λ r. r.bytes ≡ room.bytes + bytes_for (wish.now ∷ [])) }
    ensures pieces { IfSome result (λ r. HaveNumbers (wish.now ∷ [])) }
    ensures none { IfNone result
        (HoldsMore room (entries_for (wish.now ∷ [])) (bytes_for (wish.now ∷ []))
        → HaveNumbers (wish.now ∷ []) → ⊥) }
{
    match wish {
        Wish::Ask(op) => {
            let pieces = u64::from(u32::try_from(op.pieces()).ok()?);
            Some(Room {
                entries: room.entries.checked_add(pieces + 2)?,
                bytes: room.bytes.checked_add(op.read_bytes())?,
            })
        }
        Wish::Wait(_) => Some(room),
    }
}

/// The room with that of a trace more, and of its end.
fn with_trace(room: Room, wishes: &[Wish]) -> Option<Room>
    ensures entries { IfSome result (λ r.
        r.entries ≡ room.entries + (entries_for wishes.now + 1)) }
    ensures bytes { IfSome result (λ r. r.bytes ≡ room.bytes + bytes_for wishes.now) }
    ensures numbers { IfSome result (λ r. CanCount wishes.now) }
    ensures none { IfNone result
        (HoldsMore room (entries_for wishes.now + 1) (bytes_for wishes.now)
        → CanCount wishes.now → ⊥) }
{
    if wishes.len() >= u32::MAX as usize {
        return None;
    }
    let mut room = Room {
        entries: room.entries.checked_add(1)?,
        bytes: room.bytes,
    };
    for wish in wishes {
        room = with_wish(room, wish)?;
    }
    Some(room)
}

/// The room that a run of a script of so many lines and of these traces needs: four entries for each line, of which three are
/// for a job, one for each actor's end, and for each request two and one a piece; and bytes for what the requests read. `None` where that can't be
/// counted: a trace has 2^32 - 1 wishes or more, a request 2^32 pieces or more, or a sum would pass 2^64 - 1.
pub fn room_for(lines: u32, traces: &[Vec<Wish>]) -> Option<Room>
    ensures room { IfSome result (IsRoomFor lines (map (λ t. t.items) traces.now)) }
    ensures none { IfNone result (CanHaveRoom lines (map (λ t. t.items) traces.now) → ⊥) }
{
    let mut room = Room {
        entries: u64::from(lines) * 4 + 1,
        bytes: 0,
    };
    for wishes in traces {
        room = with_trace(room, wishes.as_slice())?;
    }
    Some(room)
}
