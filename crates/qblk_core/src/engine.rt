//! One guest on one image, on one thread: each call is one event.
ghost use Rattle.std.specs.Prelude.{◌≡◌, ◌<◌, ◌≤◌, length, List, ℕ, Some};
ghost use Rattle.blk_history.specs.Recorded.{log_with_entry, log_with_shown};
ghost use Rattle.blk_history.specs.Line.{request_at};
ghost use Rattle.qblk_core.specs.Steps.{CanPiece, MakesPiece};
ghost use Rattle.qblk_core.specs.Face.{flight_in_history, WasAdmitted};
ghost use Rattle.qblk_core.specs.ImageNodes.{HaveOneImage};
ghost use Rattle.blk_nodes.specs.Nodes.{node_size};
ghost use Rattle.trace_codec.specs.declared.op.Op.{Op};
ghost use Rattle.blk_history.specs.Fold.{With};
ghost use Rattle.blk_history.specs.declared.event.Event.{Event};

use crate::closing::close;
use crate::flight::InFlight;
use crate::transfer::transfer;
use blk_base::{Device, FaultAt, Outcome};
use blk_graph::NodeId;
use blk_history::{Entry, History, KeptRequest, Refused};
use blk_nodes::Nodes;
use blk_pieces::{request_piece, request_span, shown_part};
use std::marker::Model;
use trace_codec::Op;

/// How many bytes the buffer of a piece has.
pub(crate) const BLOCK: usize = 65536;

/// The nodes of an image, the guest on it, and the history so far. The buffer of the pieces is taken once.
pub(crate) struct Engine<D: Device> {
    nodes: Nodes<D>,
    /// The image's node.
    image: NodeId,
    done: u32,
    flight: Option<InFlight>,
    history: History,
    buffer: Vec<u8>,
}

impl<D: Device> Model for Engine<D> {
    ghost use Rattle.qblk_core.specs.Face.{SessionSeen, guest_on_image};
    ghost use Rattle.qblk_core.specs.Running.{IsRunning};

    ghost Value = { SessionSeen };

    ghost view = { λ a. record {
      nodes = a.nodes;
      guest = guest_on_image a.history.events a.done a.flight;
      log = a.history;
    } };

    ghost invariant = { λ a. IsRunning a.nodes a.image a.history.events a.flight a.buffer.items };
}

/// Adds the entry of an admitted request, and says where it stands.
fn note_admission(history: &mut History, request: u32, op: Op) -> u64
    requires { 0 < history.old.room }
    ensures place { result ≡ length history.old.events }
    ensures noted { history.new ≡ log_with_entry history.old (Event.Admit 0 request op) }
{
    let place = history.len();
    history.push(Entry::Admit {
        guest: 0,
        request,
        op: KeptRequest::new(op),
    });
    place
}

/// Adds the entry of a refused request.
fn note_refusal(history: &mut History, request: u32, op: Op, why: Refused)
    requires { 0 < history.old.room }
    ensures { history.new ≡ log_with_entry history.old (Event.Refuse 0 request op why) }
{
    history.push(Entry::Refuse {
        guest: 0,
        request,
        op: KeptRequest::new(op),
        why,
    });
}

/// Adds the entry of a piece, and keeps the bytes that it shows.
fn note_piece(history: &mut History, request: u32, k: u32, outcome: Outcome, shown: &[u8])
    requires room { 0 < history.old.room }
    requires byte_room { length shown.now ≤ history.old.byte_room }
    ensures { history.new
        ≡ log_with_shown history.old (Event.Piece 0 request k outcome shown.now) shown.now }
{
    let got = history.push_read(shown);
    history.push(Entry::Piece {
        guest: 0,
        request,
        k,
        outcome,
        got,
    });
}

/// Adds the entry of a request that is over.
fn note_retirement(history: &mut History, request: u32)
    requires { 0 < history.old.room }
    ensures { history.new ≡ log_with_entry history.old (Event.Retire 0 request) }
{
    history.push(Entry::Retire { guest: 0, request });
}

/// The request that is in flight.
fn flying<'a>(history: &'a History, flight: &InFlight) -> &'a Op
    requires { (op : Op) × (request_at history.now.events flight.now.place ≡ Some op) }
    ensures { request_at history.now.events flight.now.place ≡ Some result.now }
{
    history.admitted_at(flight.place).unwrap()
}

/// Makes the next piece of the request in flight, and adds its entry.
fn make_piece<D: Device>(
    nodes: &mut Nodes<D>,
    image: NodeId,
    history: &mut History,
    buffer: &mut [u8],
    request: u32,
    flight: &InFlight,
) -> Outcome
    requires image { image ≡ 1 }
    requires one { HaveOneImage nodes.old }
    requires block { length buffer.old ≡ 65536 }
    requires can { With (flight_in_history history.old.events flight.now) (CanPiece history.old) }
    requires admitted { WasAdmitted (node_size nodes.old 1) history.old.events (Some flight.now) }
    ensures made { With (flight_in_history history.old.events flight.now) (λ f. (got : List ℕ)
        × MakesPiece nodes.old nodes.new history.old history.new request f result got) }
    ensures one { HaveOneImage nodes.new }
{
    let op = flying(history, flight);
    let part = request_piece(op, u64::from(flight.next));
    let bytes = &mut buffer[..part.len as usize];
    let outcome = transfer(nodes, image, op, part, bytes);
    let shown = shown_part(op, outcome, bytes);
    note_piece(history, request, flight.next, outcome, shown);
    outcome
}

impl<D: Device> Engine<D> {
    ghost use Rattle.blk_base.specs.declared.fault.Outcome.{Outcome};
    ghost use Rattle.blk_nodes.specs.Nodes.{Nodes as SeenNodes};
    ghost use Rattle.qblk_core.specs.Face.{new_io_guest};
    ghost use Rattle.qblk_core.specs.ImageNodes.{HaveOneImage, seen_device};
    ghost use Rattle.qblk_core.specs.Session.{AreNodesClosed};
    ghost use Rattle.std.specs.Prelude.{◌≡◌, ◌+◌, ◌<◌, ◌≤◌, ◌^◌, ℕ, List, None};
    ghost use Rattle.qblk_core.specs.Face.{SessionSeen};
    ghost use Rattle.qblk_core.specs.Steps.{admitted_or_refused, IsRequestJudged, after_retirement, PutsPiece, CanPiece};
    ghost use Rattle.blk_history.specs.Fold.{With};
    ghost use Rattle.blk_history.specs.Legal.{IsFlightOver};
    ghost use Rattle.qblk_core.specs.Comes.{ComesFrom};

    /// A guest that has asked for nothing yet, on the nodes of an image.
    pub(crate) fn new(nodes: Nodes<D>, image: NodeId, history: History, buffer: Vec<u8>) -> Self
        requires image { image ≡ 1 }
        requires one { HaveOneImage nodes }
        requires block { length buffer.items ≡ 65536 }
        ensures { result ≡ record { nodes = nodes; guest = new_io_guest; log = history } }
    {
        Engine {
            nodes,
            image,
            done: 0,
            flight: None,
            history,
            buffer,
        }
    }

    /// Flushes the device, and gives it back with the history, and with the fault where the flush failed.
    pub(crate) fn finish(self) -> (D, History, Option<FaultAt>)
        ensures one { HaveOneImage self.nodes }
        ensures closed { (last : SeenNodes) × (flush : Outcome)
            × AreNodesClosed self.nodes last flush (seen_device D.Device result.0) result.2 }
        ensures history { result.1 ≡ self.log }
    {
        let Engine {
            nodes,
            image,
            done: _,
            flight: _,
            history,
            buffer: _,
        } = self;
        let (device, fault) = close(nodes, image);
        (device, history, fault)
    }

    /// Admits the guest's next request, or refuses it for the cause that is told.
    fn put_admission(&mut self, op: Op) -> Option<Refused>
        requires idle { self.old.guest.flight ≡ None }
        requires room { 0 < self.old.log.room }
        requires numbered { self.old.guest.done + 1 < 2 ^ 32 }
        ensures judged { IsRequestJudged self.old op result }
        ensures kept { self.new ≡ admitted_or_refused self.old op result }
    {
        let span = request_span(&op);
        if span.start + span.len > self.nodes.size(self.image) {
            note_refusal(&mut self.history, self.done, op, Refused::Range);
            self.done += 1;
            return Some(Refused::Range);
        }
        let place = note_admission(&mut self.history, self.done, op);
        self.flight = Some(InFlight {
            place,
            next: 0,
            is_stopped: false,
        });
        None
    }

    /// Makes the next piece of the request in flight.
    fn put_piece(&mut self) -> Outcome
        requires { With self.old.guest.flight (CanPiece self.old.log) }
        ensures { With self.old.guest.flight
            (λ f. (got : List ℕ) × PutsPiece self.old self.new f result got) }
    {
        let Some(flight) = self.flight else {
            unreachable!()
        };
        let outcome = make_piece(
            &mut self.nodes,
            self.image,
            &mut self.history,
            &mut self.buffer,
            self.done,
            &flight,
        );
        self.flight = Some(InFlight {
            place: flight.place,
            next: flight.next + 1,
            is_stopped: !outcome.is_good(),
        });
        outcome
    }

    /// Ends the request in flight.
    fn put_retirement(&mut self)
        requires over { With self.old.guest.flight IsFlightOver }
        requires room { 0 < self.old.log.room }
        requires numbered { self.old.guest.done + 1 < 2 ^ 32 }
        ensures { self.new ≡ after_retirement self.old }
    {
        note_retirement(&mut self.history, self.done);
        self.flight = None;
        self.done += 1;
    }

    /// Admits the guest's next request, or refuses it.
    pub(crate) fn admit(&mut self, op: Op) -> Option<Refused>
        requires idle { self.old.guest.flight ≡ None }
        requires room { 0 < self.old.log.room }
        requires numbered { self.old.guest.done + 1 < 2 ^ 32 }
        ensures judged { IsRequestJudged self.old op result }
        ensures kept { self.new ≡ admitted_or_refused self.old op result }
        ensures comes { (first : SeenNodes) → ComesFrom first self.old → ComesFrom first self.new }
    {
        self.put_admission(op)
    }

    /// Makes the next piece of the request in flight.
    pub(crate) fn piece(&mut self) -> Outcome
        requires { With self.old.guest.flight (CanPiece self.old.log) }
        ensures put { With self.old.guest.flight
            (λ f. (got : List ℕ) × PutsPiece self.old self.new f result got) }
        ensures comes { (first : SeenNodes) → ComesFrom first self.old → ComesFrom first self.new }
    {
        self.put_piece()
    }

    /// Ends the request in flight.
    pub(crate) fn retire(&mut self)
        requires over { With self.old.guest.flight IsFlightOver }
        requires room { 0 < self.old.log.room }
        requires numbered { self.old.guest.done + 1 < 2 ^ 32 }
        ensures kept { self.new ≡ after_retirement self.old }
        ensures comes { (first : SeenNodes) → ComesFrom first self.old → ComesFrom first self.new }
    {
        self.put_retirement();
    }
}
