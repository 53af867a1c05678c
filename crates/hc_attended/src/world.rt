//! What a crowd needs of the world: clients who connect, an origin to connect to, what is ready, and clocks.

ghost use Rattle.std.specs.Prelude.{◌≡◌, ℕ, Bool, true, [], IfSome};
ghost use Rattle.hc_flow.specs.Passing.{Stays};
ghost use Rattle.hc_flow.specs.declared.readiness.Readiness.{Readiness};
ghost use Rattle.hc_order.specs.declared.receiver.Receiver.{Receiver};
ghost use Rattle.hc_attended.specs.Worlds.{IsFreshlyAccepted, IsTold};

use hc_flow::{Readiness, Stream};
use hc_order::Receiver;
use std::time::Duration;

/// What became ready.
#[derive(Clone, Copy)]
pub enum Ready {
    /// Clients may have connected.
    Clients,
    /// The link of the guest of that number, so far.
    Guest(u64, Readiness),
    /// The link of that client, or of that forward, so far.
    Link(Receiver, Readiness),
}

/// What came of accepting a client.
pub enum Accepted<S> {
    /// A client has connected.
    Client(S),
    /// No client connects now. Once one does, that is told as what is ready.
    Later,
    /// The system has no place for a further link now.
    Full,
}

/// What a crowd needs of the world. What is ready is told once for each change. A client who has connected is a guest, by a
/// number of the guests' own, until the first octet has come.
pub trait World {
    /// A link to a client or to the origin.
    type Stream: Stream + Drop;

    /// Whether the program is asked to stop, now or later.
    ghost stop_asked: { Bool } = { true };

    /// Whether its clock shows that millisecond, now or later.
    ghost shows_tick: { ℕ → Bool } = { λ _. true };

    /// Whether it tells that of a link, now or later.
    ghost tells_of: { Receiver → Readiness → Bool } = { λ _ _. true };

    /// Waits until something is ready, so many milliseconds at most.
    fn wait(&mut self, most: u64);

    /// What became ready and wasn't told yet.
    fn ready(&mut self) -> Option<Ready>
        ensures { IfSome result (IsTold tells_of) };

    /// A client who has connected. What becomes ready at its link is told as that of the guest of that number.
    fn accept(&mut self, guest: u64) -> Accepted<Self::Stream>
        ensures { IsFreshlyAccepted Self.Stream.has_given Self.Stream.has_got result };

    /// Whether clients have connected is told anew: as what is ready, if one has. Returns whether the system
    /// does that.
    fn ask_for_clients(&mut self) -> bool;

    /// From now on what becomes ready at a guest's link is told as that of the client of that number. Nothing
    /// is read from it, nor written to it. Returns whether the system does that; where it doesn't, nothing
    /// more may be told of the link.
    fn rename(&mut self, stream: &mut Self::Stream, number: u64) -> bool
        ensures given { Stays (Self.Stream.has_given stream.old) (Self.Stream.has_given stream.new) }
        ensures got { Stays (Self.Stream.has_got stream.old) (Self.Stream.has_got stream.new) };

    /// Begins to connect to the origin for the forward of that number, without waiting: for the first time where `attempt`
    /// is 0. That the link is made, or fails, is told as what is ready, with that number. There is none where it can't
    /// begin, or all addresses were tried.
    fn connect(&mut self, forward: u64, attempt: u32) -> Option<Self::Stream>
        ensures { IfSome result (λ stream. Self.Stream.has_given stream [] × Self.Stream.has_got stream []) };

    /// What the wall clock tells, since 1970; none where it can't be read.
    fn wall(&self) -> Option<Duration>;

    /// What a clock has counted which is never set. Moments go by it.
    fn monotonic(&self) -> Duration;

    /// Its whole milliseconds. Deadlines go by them.
    fn tick(&self) -> u64
        ensures { shows_tick result ≡ true };

    /// Whether the program was asked to stop.
    fn stops(&mut self) -> bool
        ensures { result ≡ true → stop_asked ≡ true };

    /// No further client can connect.
    fn stop_listening(&mut self);
}
