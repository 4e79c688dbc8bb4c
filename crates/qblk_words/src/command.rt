//! The command whose subcommands are the forms.
ghost use Rattle.std.specs.Prelude.{◌≡◌, IfOk, false, is_some};
ghost use Rattle.clap.specs.Words.{app_of, rule_of};
ghost use Rattle.clap.specs.declared.builder.command.Command.TheViews.{out-Command};
ghost use Rattle.qblk_words.specs.Forms.{one_word, guest_words, io_app, run_app, bare_app, program_app};

use clap::{Arg, Command};
use std::alloc::{AllocError, Global};

/// A positional argument of one word.
fn one_word<'a>(alloc: Global, name: &'a str) -> Arg<'a>
    ensures rule { rule_of result ≡ one_word name.entry.now }
    ensures local { result.global ≡ false }
{
    Arg::new(alloc, name).required(true)
}

/// The guests of a run with their traces: up to 16 words, or none.
fn guest_words<'a>(alloc: Global) -> Arg<'a>
    ensures rule { rule_of result ≡ guest_words }
    ensures local { result.global ≡ false }
{
    Arg::new(alloc, "guests").num_args(1..=16)
}

/// `io FORMAT IMAGE TRACE`.
fn io_form<'a>(alloc: Global) -> Result<Command<'a>, AllocError>
    ensures app { IfOk result (λ c. app_of c ≡ io_app) }
    ensures local { IfOk result (λ c. (out-Command c).has_globals ≡ false) }
{
    let io = Command::new(alloc, "io").arg(one_word(alloc, "format"))?;
    let io = io.arg(one_word(alloc, "image"))?;
    io.arg(one_word(alloc, "trace"))
}

/// `run WORKERS SCRIPT GUEST=TRACE ..`.
fn run_form<'a>(alloc: Global) -> Result<Command<'a>, AllocError>
    ensures app { IfOk result (λ c. app_of c ≡ run_app) }
    ensures local { IfOk result (λ c. (out-Command c).has_globals ≡ false) }
{
    let run = Command::new(alloc, "run").arg(one_word(alloc, "workers"))?;
    let run = run.arg(one_word(alloc, "script"))?;
    run.arg(guest_words(alloc))
}

/// The program without its forms: it has no flags and no help.
fn bare<'a>(alloc: Global) -> Command<'a>
    ensures { app_of result ≡ bare_app }
{
    Command::new(alloc, "qblk")
        .no_binary_name(true)
        .disable_help_flag(true)
        .disable_help_subcommand(true)
        .disable_version_flag(true)
        .subcommand_required(true)
}

/// The program, with a subcommand for each form.
pub(crate) fn program<'a>(alloc: Global) -> Result<Command<'a>, AllocError>
    ensures { IfOk result (λ c. app_of c ≡ program_app) }
{
    let qblk = bare(alloc).subcommand(io_form(alloc)?)?;
    qblk.subcommand(run_form(alloc)?)
}
