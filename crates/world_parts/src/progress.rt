//! The history of a run, with what is kept beside it: how far each guest is, which lines were answered, who is done.
ghost use Rattle.std.specs.Prelude.{◌≡◌, ◌↔◌, ℕ, ◌+◌, ◌<◌, ◌≤◌, List, [], ◌∷◌, ◌++◌, length, replicate, slice_get, slice_set, IfOk, Some, IsTrue, vec_len};
ghost use Rattle.std.specs.List.{list_all};
ghost use Rattle.world_parts.specs.declared.row.GuestProgress.{GuestProgress as Row};
ghost use Rattle.qmp_rules.specs.Chains.{is_listed};
ghost use Rattle.blk_history.specs.declared.event.Event.{Event};
ghost use Rattle.world_parts.specs.Progress.{room_less, new_row, AreMarked, HaveTheirPlaces, guests_in};

use crate::entries;
use crate::row::{GuestProgress, InFlight};
use blk_base::{NoMemory, Outcome, Room};
use blk_history::{History, JobEnd, JobName, Refused};
use qmp_codec::Command;
use std::alloc::Global;
use std::marker::Model;
use trace_codec::{Await, Op};

/// The history, and how far each guest is by it. Room for all entries is taken at the beginning.
#[derive(Drop)]
pub struct Progress {
    /// The guests by number.
    rows: Vec<GuestProgress>,
    script_is_done: bool,
    /// The lines that were answered, in order.
    lines: Vec<u32>,
    /// The room that neither a request in flight nor a job needs.
    spare: Room,
    /// How many entries are set aside for jobs.
    aside: u32,
    /// The names of the jobs that began, by number.
    jobs: Vec<JobName>,
    history: History,
}

impl Model for Progress {
    ghost use Rattle.std.specs.Prelude.{vec_capacity};
    ghost use Rattle.world_parts.specs.Progress.{Progress as Seen, guests_in, KeepsStep};

    ghost Value = { Seen };

    ghost view = { λ p. record {
      guests = guests_in p.history.events p.rows.items;
      spare = p.spare;
      aside = p.aside;
      jobs = p.jobs.items;
      log = p.history;
    } };

    ghost invariant = { λ p. KeepsStep p.history p.spare p.aside p.jobs.items
        (vec_capacity p.jobs) p.rows.items p.script_is_done p.lines.items (vec_capacity p.lines) };
}

/// The row of a guest.
fn row_at(rows: &[GuestProgress], guest: u32) -> GuestProgress
    requires { guest < length rows.now }
    ensures { slice_get rows.now guest ≡ Some result }
{
    rows[guest as usize]
}

/// Puts a row in the place of a guest's.
fn put_row(rows: &mut Vec<GuestProgress>, guest: u32, row: GuestProgress)
    requires { guest < vec_len rows.old }
    ensures { rows.new.items ≡ slice_set rows.old.items guest row }
{
    rows[guest as usize] = row;
}

/// The room without so many entries and bytes.
fn less(room: Room, entries: u64, bytes: u64) -> Room
    requires entries { entries ≤ room.entries }
    requires bytes { bytes ≤ room.bytes }
    ensures { result ≡ room_less entries bytes room }
{
    Room {
        entries: room.entries - entries,
        bytes: room.bytes - bytes,
    }
}

/// Marks an actor as done.
fn mark_done(script: &mut bool, rows: &mut Vec<GuestProgress>, actor: u32)
    requires { actor ≤ vec_len rows.old }
    ensures script { (ended : List ℕ) → script.old ≡ is_listed 0 ended
        → script.new ≡ is_listed 0 (ended ++ actor ∷ []) }
    ensures guests { (ended : List ℕ) → AreMarked ended 1 rows.old.items
        → AreMarked (ended ++ actor ∷ []) 1 rows.new.items }
    ensures placed { (events : List Event) → HaveTheirPlaces events rows.old.items
        → HaveTheirPlaces events rows.new.items }
    ensures kept { (events : List Event) → guests_in events rows.new.items
        ≡ guests_in events rows.old.items }
{
    if actor == 0 {
        *script = true;
        return;
    }
    let row = row_at(rows.as_slice(), actor - 1);
    put_row(
        rows,
        actor - 1,
        GuestProgress {
            is_done: true,
            ..row
        },
    );
}

/// Rows of guests that have asked for nothing yet.
fn new_rows(alloc: Global, guests: usize) -> Result<Vec<GuestProgress>, NoMemory>
    ensures { IfOk result (λ rows. rows.items ≡ replicate guests new_row) }
{
    let row = GuestProgress {
        done: 0,
        flight: None,
        is_done: false,
    };
    Ok(vec![in alloc; row; guests]?)
}

/// Whether all guests are done.
fn all_marked(rows: &[GuestProgress]) -> bool
    ensures { result ≡ list_all (λ row. row.is_done) rows.now }
{
    rows.iter().all(|row| row.is_done)
}

impl Progress {
    ghost use Rattle.std.specs.Prelude.{IsSome, Contains, option_map, string_bytes};
    ghost use Rattle.qmp_codec.specs.Commands.{seen_command};
    ghost use Rattle.blk_history.specs.Fold.{With};
    ghost use Rattle.blk_history.specs.Machine.{Flight};
    ghost use Rattle.blk_history.specs.Legal.{IsFlightOver};
    ghost use Rattle.trace_codec.specs.Awaits.{seen_await};
    ghost use Rattle.world_parts.specs.Draining.{number_in_flight};
    ghost use Rattle.world_parts.specs.Progress.{no_progress, answered_in, ended_in, requests_done, IsFree, HasRoomFor, with_admission, with_refusal, with_retirement, with_bare_entry, with_piece_entry, with_start, with_job_entry, flight_at, CanShow};

    /// So many guests that have asked for nothing yet, no entry, and room for those of a run.
    pub fn new(alloc: Global, guests: usize, room: Room) -> Result<Self, NoMemory>
        ensures { IfOk result (λ progress. progress ≡ no_progress guests room) }
    {
        let rows = new_rows(alloc, guests)?;
        let lines = Vec::with_capacity(alloc, room.entries as usize)?;
        // beside the reply to its command, each job needs room for three entries
        let jobs = Vec::with_capacity(alloc, room.entries as usize / 3 + 1)?;
        let history = History::with_room(alloc, room)?;
        Ok(Progress {
            rows,
            script_is_done: false,
            lines,
            spare: room,
            aside: 0,
            jobs,
            history,
        })
    }

    /// The history, and the names of the jobs that began.
    pub fn into_history(self) -> (History, Vec<JobName>)
        ensures history { result.0 ≡ self.log }
        ensures jobs { result.1.items ≡ self.jobs }
    {
        let Progress {
            rows: _,
            script_is_done: _,
            lines: _,
            spare: _,
            aside: _,
            jobs,
            history,
        } = self;
        (history, jobs)
    }

    /// How many entries the history has.
    pub fn entries(&self) -> u64
        ensures { result ≡ length self.now.log.events }
    {
        self.history.len()
    }

    /// How many guests there are.
    pub fn len(&self) -> usize
        ensures { result ≡ length self.now.guests }
    {
        self.rows.len()
    }

    /// Admits a guest's next request. Says its number.
    pub fn admit(&mut self, guest: u32, op: Op) -> u32
        requires free { With (slice_get self.old.guests guest) IsFree }
        requires room { HasRoomFor op self.old.spare }
        ensures number { result ≡ requests_done self.old.guests guest }
        ensures kept { self.new ≡ with_admission guest op self.old }
    {
        let row = row_at(self.rows.as_slice(), guest);
        let spare = less(self.spare, op.pieces() + 2, op.read_bytes());
        let place = entries::note_admission(&mut self.history, guest, row.done, op);
        let flight = Some(InFlight {
            place,
            next: 0,
            is_stopped: false,
        });
        put_row(&mut self.rows, guest, GuestProgress { flight, ..row });
        self.spare = spare;
        row.done
    }

    /// Refuses a guest's next request.
    pub fn refuse(&mut self, guest: u32, op: Op, why: Refused)
        requires free { With (slice_get self.old.guests guest) IsFree }
        requires room { 0 < self.old.spare.entries }
        ensures { self.new ≡ with_refusal guest op why self.old }
    {
        let row = row_at(self.rows.as_slice(), guest);
        let spare = less(self.spare, 1, 0);
        entries::note_refusal(&mut self.history, guest, row.done, op, why);
        let done = row.done + 1;
        put_row(
            &mut self.rows,
            guest,
            GuestProgress {
                done,
                flight: None,
                ..row
            },
        );
        self.spare = spare;
    }

    /// Ends a guest's request in flight.
    pub fn retire(&mut self, guest: u32)
        requires { With (flight_at self.old.guests guest) IsFlightOver }
        ensures { self.new ≡ with_retirement guest self.old }
    {
        let row = row_at(self.rows.as_slice(), guest);
        entries::note_retirement(&mut self.history, guest, row.done);
        let done = row.done + 1;
        put_row(
            &mut self.rows,
            guest,
            GuestProgress {
                done,
                flight: None,
                ..row
            },
        );
    }

    /// Notes that a line of the script is answered.
    pub fn reply(&mut self, line: u32, given: String, command: Option<Command>, text: String)
        requires { 0 < self.old.spare.entries }
        ensures { self.new ≡ with_bare_entry
            (Event.Reply line (string_bytes given) (option_map seen_command command)
            (string_bytes text)) self.old }
    {
        let spare = less(self.spare, 1, 0);
        entries::note_reply(&mut self.history, line, given, command, text);
        self.lines.push_reserved(line);
        self.spare = spare;
    }

    /// Notes that what a line of the script waits for has come.
    pub fn reach(&mut self, line: u32, what: Await)
        requires { 0 < self.old.spare.entries }
        ensures { self.new ≡ with_bare_entry (Event.Reached line (seen_await what)) self.old }
    {
        let spare = less(self.spare, 1, 0);
        entries::note_reached(&mut self.history, line, what);
        self.lines.push_reserved(line);
        self.spare = spare;
    }

    /// Whether a line of the script has its reply, or its wait is over.
    pub fn is_answered(&self, line: u32) -> bool
        ensures { result ≡ is_listed line (answered_in self.now.log.events) }
    {
        self.lines.iter().any(|other| *other == line)
    }

    /// Whether an actor is done: the script, which is actor 0, or a guest behind it.
    pub fn is_done(&self, actor: u32) -> bool
        requires { actor ≤ length self.now.guests }
        ensures { result ≡ is_listed actor (ended_in self.now.log.events) }
    {
        if actor == 0 {
            return self.script_is_done;
        }
        row_at(self.rows.as_slice(), actor - 1).is_done
    }

    /// The number of a guest's request in flight.
    pub fn request(&self, guest: u32) -> Option<u32>
        ensures { result ≡ number_in_flight (slice_get self.now.guests guest) }
    {
        if guest as usize >= self.rows.len() {
            return None;
        }
        let row = row_at(self.rows.as_slice(), guest);
        match row.flight {
            Some(_) => Some(row.done),
            None => None,
        }
    }

    /// The request in flight of a guest.
    pub fn flying(&self, guest: u32) -> &Op
        requires { IsSome (flight_at self.now.guests guest) }
        ensures { With (flight_at self.now.guests guest) (λ f. f.op ≡ result.now) }
    {
        let Some(flight) = row_at(self.rows.as_slice(), guest).flight else {
            unreachable!()
        };
        self.history.admitted_at(flight.place).unwrap()
    }

    /// The number of its next piece.
    pub fn next_piece(&self, guest: u32) -> u32
        requires { IsSome (flight_at self.now.guests guest) }
        ensures { With (flight_at self.now.guests guest) (λ f. f.next ≡ result) }
    {
        match row_at(self.rows.as_slice(), guest).flight {
            Some(flight) => flight.next,
            None => unreachable!(),
        }
    }

    /// Notes how its next piece went, with the bytes that it shows.
    pub fn note_piece(&mut self, guest: u32, outcome: Outcome, shown: &[u8])
        requires { With (flight_at self.old.guests guest) (CanShow (length shown.now)) }
        ensures { (f : Flight) → flight_at self.old.guests guest ≡ Some f
            → self.new ≡ with_piece_entry guest f.next outcome shown.now self.old }
    {
        let row = row_at(self.rows.as_slice(), guest);
        let Some(flight) = row.flight else {
            unreachable!()
        };
        entries::note_piece(
            &mut self.history,
            guest,
            row.done,
            flight.next,
            outcome,
            shown,
        );
        let flight = Some(InFlight {
            place: flight.place,
            next: flight.next + 1,
            is_stopped: !outcome.is_good(),
        });
        put_row(&mut self.rows, guest, GuestProgress { flight, ..row });
    }

    /// Notes that an actor is done.
    pub fn finish(&mut self, actor: u32)
        requires known { actor ≤ length self.old.guests }
        requires room { 0 < self.old.spare.entries }
        ensures { self.new ≡ with_bare_entry (Event.Done actor) self.old }
    {
        let spare = less(self.spare, 1, 0);
        entries::note_done(&mut self.history, actor);
        mark_done(&mut self.script_is_done, &mut self.rows, actor);
        self.spare = spare;
    }

    /// Notes that a job of this name begins. Beside this entry, room is set aside for two: that it is ready, and that it ends.
    pub fn start(&mut self, job: u32, name: JobName)
        requires room { 3 ≤ self.old.spare.entries }
        requires few { self.old.aside ≤ 30 }
        ensures { self.new ≡ with_start job name self.old }
    {
        let spare = less(self.spare, 3, 0);
        entries::note_start(&mut self.history, job);
        self.jobs.push_reserved(name);
        self.spare = spare;
        self.aside += 2;
    }

    /// Notes that a job is ready.
    pub fn ready(&mut self, job: u32)
        requires { 1 ≤ self.old.aside }
        ensures { self.new ≡ with_job_entry 1 (Event.Ready job) self.old }
    {
        entries::note_ready(&mut self.history, job);
        self.aside -= 1;
    }

    /// Notes that a job ended, for which so many entries were set aside.
    pub fn end_job(&mut self, owed: u32, job: u32, outcome: JobEnd, offset: u64)
        requires some { 1 ≤ owed }
        requires room { owed ≤ self.old.aside }
        ensures { self.new ≡ with_job_entry owed (Event.End job outcome offset) self.old }
    {
        entries::note_end(&mut self.history, job, outcome, offset);
        self.aside -= owed;
    }

    /// Whether so many requests of a guest are done; of no guest, none is.
    pub fn has_done(&self, guest: u32, requests: u32) -> bool
        ensures { IsTrue result
            ↔ With (slice_get self.now.guests guest) (λ row. requests ≤ row.done) }
    {
        if guest as usize >= self.rows.len() {
            return false;
        }
        requests <= row_at(self.rows.as_slice(), guest).done
    }

    /// Whether the script and all guests are done.
    pub fn all_done(&self) -> bool
        ensures { IsTrue result
            ↔ ((actor : ℕ) → actor ≤ length self.now.guests
            → Contains (ended_in self.now.log.events) actor) }
    {
        self.script_is_done && all_marked(self.rows.as_slice())
    }
}
