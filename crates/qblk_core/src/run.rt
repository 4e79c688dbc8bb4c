//! The calls of the program.
ghost use Rattle.std.specs.Prelude.{◌≡◌, ◌⊎◌, List, ℕ};
ghost use Rattle.qblk_words.specs.Words.{texts_in};
ghost use Rattle.qblk_words.specs.Words.{IsIo};
ghost use Rattle.qblk_core.specs.Run.{AnswersIo, TellsFaults};
ghost use Rattle.qblk_words.specs.declared.words.Format.{Format};
ghost use Rattle.qblk_inputs.specs.Reading.{NoneOut};

use crate::session::run_on;
use crate::status::Status;
use blk_base::{Sink, Store, Text};
use qblk_words::{Form, WordsStop, read_words};
use std::alloc::Global;

/// Runs the trace of `io FORMAT IMAGE TRACE` on the image, and puts the transcript. The words are of that form. The store comes
/// back with no device out.
pub fn run_io<S: Store, K: Sink>(
    alloc: Global,
    words: &[Text],
    store: S,
    out: &mut K,
) -> (Status, S)
    requires form { (format : Format) × (image : List ℕ) × (trace : List ℕ)
        × IsIo (texts_in words.now) format image trace }
    requires none_out { NoneOut (S.opened store) }
    ensures ended { (format : Format) (image trace : List ℕ)
        → IsIo (texts_in words.now) format image trace → AnswersIo format image trace
        (record {
          files = S.files store;
          opened = S.opened store;
          store_faults = S.faults store;
          failed_call = S.failed_call store;
          sent = K.sent out.old;
          sink_faults = K.faults out.old;
        })
        (record {
          files = S.files result.1;
          opened = S.opened result.1;
          store_faults = S.faults result.1;
          failed_call = S.failed_call result.1;
          sent = K.sent out.new;
          sink_faults = K.faults out.new;
        })
        result.0 }
    // no fault of the store or the sink goes untold
    ensures faults { TellsFaults
        (record {
          files = S.files store;
          opened = S.opened store;
          store_faults = S.faults store;
          failed_call = S.failed_call store;
          sent = K.sent out.old;
          sink_faults = K.faults out.old;
        })
        (record {
          files = S.files result.1;
          opened = S.opened result.1;
          store_faults = S.faults result.1;
          failed_call = S.failed_call result.1;
          sent = K.sent out.new;
          sink_faults = K.faults out.new;
        })
        result.0 }
    ensures back { NoneOut (S.opened result.1) }
{
    let mut store = store;
    let status = match read_words(alloc, words) {
        Ok(Form::Io(io)) => {
            let (image, trace) = (io.image.as_str(), io.trace.as_str());
            run_on(alloc, io.format, image, trace, &mut store, out)
        }
        Err(WordsStop::NoMemory) => Status::NoMemory,
        Ok(Form::Run(_)) | Err(WordsStop::Usage) => unreachable!(),
    };
    (status, store)
}

/// Does what words of the form `io FORMAT IMAGE TRACE` say, on the files of a store; all others are Usage. They come without the
/// program's name. The store comes back with no device out.
pub fn qblk<S: Store, K: Sink>(alloc: Global, words: &[Text], store: S, out: &mut K) -> (Status, S)
    requires { NoneOut (S.opened store) }

    // `io FORMAT IMAGE TRACE`
    ensures io { (format : Format) (image trace : List ℕ)
        → IsIo (texts_in words.now) format image trace → AnswersIo format image trace
        (record {
          files = S.files store;
          opened = S.opened store;
          store_faults = S.faults store;
          failed_call = S.failed_call store;
          sent = K.sent out.old;
          sink_faults = K.faults out.old;
        })
        (record {
          files = S.files result.1;
          opened = S.opened result.1;
          store_faults = S.faults result.1;
          failed_call = S.failed_call result.1;
          sent = K.sent out.new;
          sink_faults = K.faults out.new;
        })
        result.0 }

    // all other words: nothing is done
    ensures usage { ((format : Format) (image trace : List ℕ)
        → IsIo (texts_in words.now) format image trace
        → ⊥) → ((result.0 ≡ Status.Usage) ⊎ (result.0 ≡ Status.NoMemory))
        × (result.1 ≡ store) × (out.new ≡ out.old) }

    // no fault of the store or the sink goes untold
    ensures faults { TellsFaults
        (record {
          files = S.files store;
          opened = S.opened store;
          store_faults = S.faults store;
          failed_call = S.failed_call store;
          sent = K.sent out.old;
          sink_faults = K.faults out.old;
        })
        (record {
          files = S.files result.1;
          opened = S.opened result.1;
          store_faults = S.faults result.1;
          failed_call = S.failed_call result.1;
          sent = K.sent out.new;
          sink_faults = K.faults out.new;
        })
        result.0 }

    // whatever the words: no device is left out
    ensures back { NoneOut (S.opened result.1) }
{
    match read_words(alloc, words) {
        Ok(Form::Io(_)) => run_io(alloc, words, store, out),
        Err(WordsStop::NoMemory) => (Status::NoMemory, store),
        Ok(Form::Run(_)) | Err(WordsStop::Usage) => (Status::Usage, store),
    }
}
