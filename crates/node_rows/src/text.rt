//! Answers as rows say them.

use blk_base::Outcome;
use blk_nodes::AddStop;
use row_text::Words;

/// Puts why a node isn't added.
pub(crate) fn put_stop(stop: &AddStop, out: &mut Words) {
    match stop {
        AddStop::NameTaken => out.put("NameTaken"),
        AddStop::TooManyNodes => out.put("TooManyNodes"),
        AddStop::Conflict(_) => out.put("Conflict"),
        AddStop::Image(why) => out.show(why),
        AddStop::BackingNeeded => out.put("BackingNeeded"),
        AddStop::SizeDiffers => out.put("SizeDiffers"),
        AddStop::NoMemory => out.put("NoMemory"),
    }
}

/// Puts how a piece went.
pub(crate) fn put_outcome(outcome: Outcome, out: &mut Words) {
    match outcome {
        Outcome::Good => out.put("ok"),
        Outcome::Torn { done, dev, count } => {
            out.fill("Torn(%, %, %)", &[done, u64::from(dev.0), count]);
        }
        Outcome::Io { dev, count } => out.fill("Io(%, %)", &[u64::from(dev.0), count]),
        Outcome::NoSpace { dev } => out.fill("NoSpace(%)", &[u64::from(dev.0)]),
    }
}
