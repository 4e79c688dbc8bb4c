//! Lists of asks, put one behind the other.
ghost use Rattle.std.specs.Prelude.{◌≡◌, ◌++◌, OnOk, option_map, string_bytes};
ghost use Rattle.qmp_asks.specs.Seen.{seen_asks, seen_text};

use crate::ask::Ask;
use blk_base::NoMemory;

/// What a command asks, with the command's own texts.
pub type Asks<'x> = Vec<Ask<&'x str>>;

/// Puts asks behind those that are there.
pub(crate) fn put<'x>(asks: &mut Asks<'x>, more: &[Ask<&'x str>]) -> Result<(), NoMemory>
    ensures { OnOk result
        (seen_asks asks.new.items ≡ seen_asks asks.old.items ++ seen_asks more.now) }
{
    asks.extend_from_slice(more)?;
    Ok(())
}

/// The text of a member that may be absent.
pub fn maybe(text: &Option<String>) -> Option<&str>
    ensures { seen_text result ≡ option_map string_bytes text.now }
{
    match text {
        Some(text) => Some(text.as_str()),
        None => None,
    }
}
