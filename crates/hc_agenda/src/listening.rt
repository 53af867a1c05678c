//! Whether clients may be accepted.

ghost use Rattle.std.specs.Prelude.{◌≡◌, ◌&&◌, ◌-◌, None, Some, nat_lt};
ghost use Rattle.hc_agenda.specs.declared.listening.TheConstants.{MOST_ACCEPTED};
ghost use Rattle.hc_agenda.specs.Gates.{accepted_at, is_known, is_idle, is_over, is_ready, looked_at, retried_at, woken_at};

/// So many clients are accepted in a batch at most.
const MOST_ACCEPTED: u32 = 256;

/// What is known of clients who connect.
#[derive(Clone, Copy)]
enum Gate {
    /// Some may have connected.
    Ready,
    /// One has connected at least, as was told.
    Known,
    /// None has connected, until that is told.
    Idle,
    /// Some may have connected, but the system has no place for a further link.
    Full,
    /// No further one can connect.
    Over,
}

impl Gate {
    /// Whether a client may have connected.
    fn is_ready(self) -> bool
        ensures { result ≡ is_ready self }
    {
        match self {
            Gate::Ready => true,
            Gate::Known => true,
            Gate::Idle => false,
            Gate::Full => false,
            Gate::Over => false,
        }
    }

    /// Whether one has, as was told.
    fn is_known(self) -> bool
        ensures { result ≡ is_known self }
    {
        match self {
            Gate::Ready => false,
            Gate::Known => true,
            Gate::Idle => false,
            Gate::Full => false,
            Gate::Over => false,
        }
    }

    /// Whether none has, as far as is known, or no further one can.
    fn is_idle(self) -> bool
        ensures { result ≡ is_idle self }
    {
        match self {
            Gate::Ready => false,
            Gate::Known => false,
            Gate::Idle => true,
            Gate::Full => false,
            Gate::Over => true,
        }
    }

    /// Whether no further one can.
    fn is_over(self) -> bool
        ensures { result ≡ is_over self }
    {
        match self {
            Gate::Ready => false,
            Gate::Known => false,
            Gate::Idle => false,
            Gate::Full => false,
            Gate::Over => true,
        }
    }

    /// It is told that a client has connected.
    fn woken(self) -> Self
        ensures { result ≡ woken_at self }
    {
        match self {
            Gate::Ready => Gate::Known,
            Gate::Known => Gate::Known,
            Gate::Idle => Gate::Known,
            Gate::Full => Gate::Full,
            Gate::Over => Gate::Over,
        }
    }

    /// Clients may have connected who weren't told of yet.
    fn looked(self) -> Self
        ensures { result ≡ looked_at self }
    {
        match self {
            Gate::Ready => Gate::Ready,
            Gate::Known => Gate::Known,
            Gate::Idle => Gate::Ready,
            Gate::Full => Gate::Full,
            Gate::Over => Gate::Over,
        }
    }

    /// A client was accepted.
    fn accepted(self) -> Self
        ensures { result ≡ accepted_at self }
    {
        match self {
            Gate::Ready => Gate::Ready,
            Gate::Known => Gate::Ready,
            Gate::Idle => Gate::Idle,
            Gate::Full => Gate::Full,
            Gate::Over => Gate::Over,
        }
    }

    /// The system may have a place again.
    fn retried(self) -> Self
        ensures { result ≡ retried_at self }
    {
        match self {
            Gate::Ready => Gate::Ready,
            Gate::Known => Gate::Known,
            Gate::Idle => Gate::Idle,
            Gate::Full => Gate::Ready,
            Gate::Over => Gate::Over,
        }
    }
}

/// Whether clients may be accepted, and how many of them in this batch.
#[derive(Clone, Copy)]
pub struct Listening {
    gate: Gate,
    /// So many more may be accepted in this batch.
    left: u32,
    /// Nobody is turned away before that millisecond: somebody will have been silent for long enough to give way.
    held_until: Option<u64>,
}

impl Listening {
    /// Clients may have connected already.
    pub fn new() -> Self
        ensures { result ≡ record { gate = Gate.Ready; left = MOST_ACCEPTED; held_until = None } }
    {
        Listening {
            gate: Gate::Ready,
            left: MOST_ACCEPTED,
            held_until: None,
        }
    }

    /// Whether a client may have connected.
    pub fn is_ready(&self) -> bool
        ensures { result ≡ is_ready self.now.gate }
    {
        self.gate.is_ready()
    }

    /// Whether it was told that a client has connected, and none was accepted since.
    pub fn is_known(&self) -> bool
        ensures { result ≡ is_known self.now.gate }
    {
        self.gate.is_known()
    }

    /// Whether none has connected, as far as is known, or no further one can.
    pub fn is_idle(&self) -> bool
        ensures { result ≡ is_idle self.now.gate }
    {
        self.gate.is_idle()
    }

    /// Whether no further client can connect.
    pub fn is_over(&self) -> bool
        ensures { result ≡ is_over self.now.gate }
    {
        self.gate.is_over()
    }

    /// Whether a client may have connected who may be accepted in this batch.
    pub fn may_accept(&self) -> bool
        ensures { result ≡ (is_ready self.now.gate && nat_lt 0 self.now.left) }
    {
        self.is_ready() && self.left > 0
    }

    /// A new batch begins.
    pub fn begin_batch(&mut self)
        ensures { self.new ≡ record self.old { left = MOST_ACCEPTED; held_until = None } }
    {
        self.left = MOST_ACCEPTED;
        self.held_until = None;
    }

    /// In this batch nobody is turned away: clients wait until that millisecond, when somebody may give way.
    pub fn hold(&mut self, until: u64)
        ensures { self.new ≡ record self.old { held_until = Some until } }
    {
        self.held_until = Some(until);
    }

    /// Until when clients wait, if they do in this batch.
    pub fn held_until(&self) -> Option<u64>
        ensures { result ≡ self.now.held_until }
    {
        self.held_until
    }

    /// It is told that a client has connected.
    pub fn wake(&mut self)
        ensures { self.new ≡ record self.old { gate = woken_at self.old.gate } }
    {
        self.gate = self.gate.woken();
    }

    /// Clients may have connected who weren't told of yet.
    pub fn look(&mut self)
        ensures { self.new ≡ record self.old { gate = looked_at self.old.gate } }
    {
        self.gate = self.gate.looked();
    }

    /// A client was accepted. Further ones may have connected.
    pub fn accepted(&mut self)
        ensures { self.new ≡ record self.old { gate = accepted_at self.old.gate; left = self.old.left - 1 } }
    {
        self.left = self.left.saturating_sub(1);
        self.gate = self.gate.accepted();
    }

    /// No client connects now.
    pub fn rest(&mut self)
        ensures { self.new ≡ record self.old { gate = Gate.Idle } }
    {
        self.gate = Gate::Idle;
    }

    /// The system has no place for a further link.
    pub fn fill(&mut self)
        ensures { self.new ≡ record self.old { gate = Gate.Full } }
    {
        self.gate = Gate::Full;
    }

    /// The system may have a place again.
    pub fn retry(&mut self)
        ensures { self.new ≡ record self.old { gate = retried_at self.old.gate } }
    {
        self.gate = self.gate.retried();
    }

    /// No further client can connect.
    pub fn end(&mut self)
        ensures { self.new ≡ record self.old { gate = Gate.Over } }
    {
        self.gate = Gate::Over;
    }
}
