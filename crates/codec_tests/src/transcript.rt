//! Lines of the transcript, and what a history keeps.
ghost use Rattle.std.specs.Prelude.{◌≡◌, ◌<◌, [], ◌∷◌, length, codes, IfOk};
ghost use Rattle.qmp_codec.specs.declared.event.JobKind.{JobKind};
ghost use Rattle.blk_history.specs.Names.{RowNames};
ghost use Rattle.blk_history.specs.Recorded.{event_of, PointsWithin};
ghost use Rattle.blk_history.specs.Line.{At, IsActorNamed};

use blk_base::{Bytes, DevNo, Names1, Outcome, Room, Span, Text};
use blk_history::{Awaited, Entry, History, JobName, KeptRequest, Refused, Rows, Understood};
use qmp_codec::JobKind;
use std::alloc::Global;
use std::process::Abort;
use std::test::Fail;
use trace_codec::{Await, Op, Payload};

const NOTHING: Span = Span { start: 0, len: 0 };

fn names(alloc: Global) -> Result<Rows, Fail>
    ensures { IfOk result (λ rows. rows ≡ record {
      guests = codes "a" ∷ codes "guest2" ∷ [];
      jobs = record { id = codes "b"; kind = JobKind.Backup; size = 131072 } ∷ [];
    }) }
{
    let mut guests = Vec::new(alloc);
    guests.push(Text::copied(alloc, "a")?)?;
    guests.push(Text::copied(alloc, "guest2")?)?;
    let id = Text::copied(alloc, "b")?;
    let mut jobs = Vec::new(alloc);
    jobs.push(JobName::new(id, JobKind::Backup, 131_072))?;
    Ok(Rows::new(Names1::from_vec(guests), jobs))
}

fn read(start: u32, len: u32) -> KeptRequest {
    KeptRequest::new(Op::Read(Span {
        start: u64::from(start),
        len: u64::from(len),
    }))
}

fn write(start: u32, len: u32) -> KeptRequest {
    let span = Span {
        start: u64::from(start),
        len: u64::from(len),
    };
    KeptRequest::new(Op::Write(span, Payload::Fill(0x55)))
}

fn piece(k: u32, outcome: Outcome) -> Entry
    ensures named { (names : RowNames) → 1 < length names.guests
        → IsActorNamed names (event_of [] result) }
    ensures within { PointsWithin 0 result }
{
    Entry::Piece {
        guest: 1,
        request: 9,
        k,
        outcome,
        got: NOTHING,
    }
}

// A history of one entry, where reads gave these bytes.
fn kept(alloc: Global, entry: Entry, got: &[u8]) -> Result<History, Fail>
    requires { PointsWithin (length got.now) entry }
    ensures { IfOk result (λ history. history.events ≡ event_of got.now entry ∷ []) }
{
    let room = Room {
        entries: 1,
        bytes: got.len() as u64,
    };
    let mut history = History::with_room(alloc, room)?;
    history.push_read(got);
    history.push(entry);
    Ok(history)
}

// The line of the first entry.
fn first_line(alloc: Global, history: &History) -> Result<Text, Fail>
    requires some { 0 < length history.now.events }
    requires named { At history.now.events 0 (IsActorNamed (record {
      guests = codes "a" ∷ codes "guest2" ∷ [];
      jobs = record { id = codes "b"; kind = JobKind.Backup; size = 131072 } ∷ [];
    })) }
{
    let names = names(alloc)?;
    let mut line = Text::new(alloc);
    history.line(0, &names, &mut line)?;
    Ok(line)
}

// Tries the line of a history's only entry, where reads gave these bytes.
fn says(rt: &impl Abort, alloc: Global, entry: Entry, got: &[u8], want: &str) -> Result<(), Fail>
    requires named { IsActorNamed (record {
      guests = codes "a" ∷ codes "guest2" ∷ [];
      jobs = record { id = codes "b"; kind = JobKind.Backup; size = 131072 } ∷ [];
    }) (event_of got.now entry) }
    requires within { PointsWithin (length got.now) entry }
{
    let history = kept(alloc, entry, got)?;
    let line = first_line(alloc, &history)?;
    assert!(rt; line.as_str() == want, "{want}");
    Ok(())
}

// Tries the line of the admission of a request.
fn admits(rt: &impl Abort, alloc: Global, op: Op, want: &str) -> Result<(), Fail> {
    let entry = Entry::Admit {
        guest: 0,
        request: 3,
        op: KeptRequest::new(op),
    };
    says(rt, alloc, entry, &[], want)
}

#[test]
fn lines_of_requests(rt: HostRuntime) -> Result<(), Fail> {
    let entry = Entry::Admit {
        guest: 0,
        request: 0,
        op: write(65_530, 12),
    };
    says(&rt, rt.alloc(), entry, &[], "admit a 0 write 65530 12\n")?;
    let entry = Entry::Refuse {
        guest: 1,
        request: 7,
        op: read(1_048_576, 1),
        why: Refused::Range,
    };
    says(
        &rt,
        rt.alloc(),
        entry,
        &[],
        "refuse guest2 7 read 1048576 1 range\n",
    )?;
    let entry = Entry::Refuse {
        guest: 1,
        request: 8,
        op: write(0, 2_097_152),
        why: Refused::ReadOnly,
    };
    says(
        &rt,
        rt.alloc(),
        entry,
        &[],
        "refuse guest2 8 write 0 2097152 readonly\n",
    )?;
    let entry = Entry::Retire {
        guest: 1,
        request: 4_294_967_295,
    };
    says(&rt, rt.alloc(), entry, &[], "retire guest2 4294967295\n")?;
    Ok(())
}

#[test]
fn lines_of_other_requests(rt: HostRuntime) -> Result<(), Fail> {
    let span = Span {
        start: 65_535,
        len: 2,
    };
    let raw = Payload::Raw(Bytes::from_vec(vec![in rt.alloc(); 1, 2]?));
    admits(
        &rt,
        rt.alloc(),
        Op::Write(span, raw),
        "admit a 3 write 65535 2\n",
    )?;
    admits(&rt, rt.alloc(), Op::Zero(span), "admit a 3 zero 65535 2\n")?;
    admits(&rt, rt.alloc(), Op::Flush, "admit a 3 flush\n")?;
    admits(
        &rt,
        rt.alloc(),
        Op::Discard(span),
        "admit a 3 discard 65535 2\n",
    )?;
    let refused = Entry::Refuse {
        guest: 0,
        request: 4,
        op: KeptRequest::new(Op::Zero(span)),
        why: Refused::ReadOnly,
    };
    says(
        &rt,
        rt.alloc(),
        refused,
        &[],
        "refuse a 4 zero 65535 2 readonly\n",
    )?;
    Ok(())
}

#[test]
fn lines_of_pieces(rt: HostRuntime) -> Result<(), Fail> {
    let dev = DevNo(3);
    let good = piece(0, Outcome::Good);
    says(&rt, rt.alloc(), good, &[], "piece guest2 9 0 ok\n")?;
    let failed = piece(1, Outcome::Io { dev, count: 5 });
    says(&rt, rt.alloc(), failed, &[], "piece guest2 9 1 io dev3 5\n")?;
    let torn = Outcome::Torn {
        done: 512,
        dev,
        count: u64::MAX,
    };
    says(
        &rt,
        rt.alloc(),
        piece(2, torn),
        &[],
        "piece guest2 9 2 torn 512 dev3 18446744073709551615\n",
    )?;
    let full = piece(3, Outcome::NoSpace { dev });
    says(
        &rt,
        rt.alloc(),
        full,
        &[],
        "piece guest2 9 3 nospace dev3\n",
    )?;
    Ok(())
}

#[test]
fn line_of_a_read(rt: HostRuntime) -> Result<(), Fail> {
    let entry = Entry::Piece {
        guest: 0,
        request: 1,
        k: 2,
        outcome: Outcome::Good,
        got: Span { start: 1, len: 6 },
    };
    says(
        &rt,
        rt.alloc(),
        entry,
        &[9, 0x55, 0x55, 0x55, 0, 0, 0xab, 9],
        "piece a 1 2 ok 55*3 00*2 ab*1\n",
    )?;
    Ok(())
}

// The entry of a reply.
fn reply(given: Text, text: Text) -> Entry
    ensures named { IsActorNamed (record {
      guests = codes "a" ∷ codes "guest2" ∷ [];
      jobs = record { id = codes "b"; kind = JobKind.Backup; size = 131072 } ∷ [];
    }) (event_of [] result) }
    ensures within { PointsWithin 0 result }
{
    Entry::Reply {
        line: 4,
        given,
        command: Understood::new(None),
        text,
    }
}

#[test]
fn line_of_a_reply(rt: HostRuntime) -> Result<(), Fail> {
    let given = Text::copied(rt.alloc(), "hello")?;
    let text = Text::copied(rt.alloc(), "{\"return\":{}}")?;
    says(
        &rt,
        rt.alloc(),
        reply(given, text),
        &[],
        "reply 4 {\"return\":{}}\n",
    )
}

#[test]
fn lines_of_the_script(rt: HostRuntime) -> Result<(), Fail> {
    let what = Await::Guest {
        guest: 0,
        requests: 2,
    };
    let entry = Entry::Reached {
        line: 4096,
        what: Awaited::new(what),
    };
    says(&rt, rt.alloc(), entry, &[], "reached 4096\n")?;
    let script = Entry::Done { actor: 0 };
    says(&rt, rt.alloc(), script, &[], "done script\n")?;
    let guest = Entry::Done { actor: 2 };
    says(&rt, rt.alloc(), guest, &[], "done guest2\n")
}

#[test]
fn admissions_are_found(rt: HostRuntime) -> Result<(), Fail> {
    let room = Room {
        entries: 2,
        bytes: 0,
    };
    let mut history = History::with_room(rt.alloc(), room)?;
    history.push(Entry::Admit {
        guest: 0,
        request: 0,
        op: write(7, 8),
    });
    history.push(Entry::Retire {
        guest: 0,
        request: 0,
    });
    assert!(rt;
        matches!(
            history.admitted_at(0),
            Some(Op::Write(_, Payload::Fill(0x55)))
        )
    );
    assert!(rt; history.admitted_at(1).is_none());
    Ok(())
}
