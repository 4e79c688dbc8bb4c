//! What the words of the program ask for.
ghost use Rattle.std.specs.Prelude.{◌≡◌, ◌⊎◌, ℕ, List};
ghost use Rattle.qblk_core.specs.Run.{AnswersIo, TellsFaults};
ghost use Rattle.qblk_words.specs.Words.{IsIo};
ghost use Rattle.qblk_words.specs.declared.words.Format.{Format};
ghost use Rattle.qblk_inputs.specs.Reading.{NoneOut};
ghost use Rattle.qblk_words.specs.Words.{Cast, IsRunOf, texts_in};
ghost use Rattle.qblk_run.specs.Run.{Answers, setting, outside};

use crate::run::run_script;
use blk_base::{Sink, Store, Text};
use qblk_core::{Status, run_io};
use qblk_words::{Form, WordsStop, read_words};
use std::alloc::Global;

/// Does what words of the forms `io FORMAT IMAGE TRACE` and `run 1 SCRIPT GUEST=TRACE ..` say, on the files of a store; all
/// others are Usage. They come without the program's name. The store comes back with no device out.
pub fn qblk<S: Store, K: Sink>(alloc: Global, words: &[Text], store: S, out: &mut K) -> (Status, S)
    requires { NoneOut (S.opened store) }

    // `io FORMAT IMAGE TRACE`
    ensures io { (format : Format) (image trace : List ℕ)
        → IsIo (texts_in words.now) format image trace → AnswersIo format image trace
        (outside (S.files store) (S.opened store) (S.faults store)
        (S.failed_call store) (K.sent out.old) (K.faults out.old))
        (outside (S.files result.1) (S.opened result.1) (S.faults result.1)
        (S.failed_call result.1) (K.sent out.new) (K.faults out.new))
        result.0 }

    // `run 1 SCRIPT GUEST=TRACE ..`
    ensures run { (cast : Cast) → IsRunOf (texts_in words.now) cast → Answers cast
        (setting (S.files store) (S.opened store) (S.room store) (S.faults store)
        (S.failed_call store) (K.sent out.old) (K.faults out.old))
        (setting (S.files result.1) (S.opened result.1) (S.room result.1) (S.faults result.1)
        (S.failed_call result.1) (K.sent out.new) (K.faults out.new))
        result.0 }

    // all other words: nothing is done
    ensures usage { ((format : Format) (image trace : List ℕ)
        → IsIo (texts_in words.now) format image trace → ⊥)
        → ((cast : Cast) → IsRunOf (texts_in words.now) cast → ⊥)
        → ((result.0 ≡ Status.Usage) ⊎ (result.0 ≡ Status.NoMemory))
        × (result.1 ≡ store) × (out.new ≡ out.old) }

    // of `io`, no fault of the store or the sink goes untold
    ensures faults { (format : Format) (image trace : List ℕ)
        → IsIo (texts_in words.now) format image trace → TellsFaults
        (outside (S.files store) (S.opened store) (S.faults store)
        (S.failed_call store) (K.sent out.old) (K.faults out.old))
        (outside (S.files result.1) (S.opened result.1) (S.faults result.1)
        (S.failed_call result.1) (K.sent out.new) (K.faults out.new))
        result.0 }

    // whatever the words: no device is left out
    ensures back { NoneOut (S.opened result.1) }
{
    match read_words(alloc, words) {
        Ok(Form::Run(_)) => run_script(alloc, words, store, out),
        Ok(Form::Io(_)) => run_io(alloc, words, store, out),
        Err(WordsStop::Usage) => (Status::Usage, store),
        Err(WordsStop::NoMemory) => (Status::NoMemory, store),
    }
}
