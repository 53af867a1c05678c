//! What a cache counts.

ghost use Rattle.std.specs.Prelude.{◌≡◌};
ghost use Rattle.hc_service.specs.Numbers.{no_numbers};

/// What a cache counts. A count that has come to its last value stays there.
#[derive(Clone, Copy, PartialEq, Eq)]
pub struct Numbers {
    /// The last moment, in whole seconds since 1970.
    pub moment: u64,
    /// The number of the connection that was opened last, if one was.
    pub connection: Option<u64>,
    /// The number of the last exchange, 0 where there was none.
    pub exchange: u64,
    /// The number of the last forward, 0 where there was none.
    pub forward: u64,
    /// How many records were given out.
    pub records: u64,
    /// For how many connections there is room, from 1 to 65,536.
    pub room: usize,
    /// Whether each reply closes its connection behind it.
    pub closing: bool,
}

impl Numbers {
    ghost use Rattle.std.specs.Prelude.{◌≡◌, ℕ};
    ghost use Rattle.hc_service.specs.Numbers.{after_opening, asked, at_moment, no_numbers, noted, one_more, sent, stopping};

    /// Those of a cache to which nothing has happened, with room for so many connections.
    pub fn new(room: usize) -> Self
        ensures { result ≡ no_numbers room }
    {
        Numbers {
            moment: 0,
            connection: None,
            exchange: 0,
            forward: 0,
            records: 0,
            room,
            closing: false,
        }
    }

    /// Something happens at that moment; one that is earlier than the last counts as the last.
    pub fn pass_to(&mut self, moment: u64)
        ensures { self.new ≡ at_moment moment self.old }
    {
        self.moment = self.moment.max(moment);
    }

    /// A connection of that number opens.
    pub fn open(&mut self, connection: u64)
        ensures { self.new ≡ after_opening connection self.old }
    {
        self.connection = Some(connection);
    }

    /// A request gets its record, and the number of its exchange.
    pub fn ask(&mut self) -> u64
        ensures number { result ≡ one_more self.old.exchange }
        ensures numbers { self.new ≡ asked self.old }
    {
        self.exchange = self.exchange.saturating_add(1);
        self.records = self.records.saturating_add(1);
        self.exchange
    }

    /// A request to the origin gets its record, and the number of its forward.
    pub fn send(&mut self) -> u64
        ensures number { result ≡ one_more self.old.forward }
        ensures numbers { self.new ≡ sent self.old }
    {
        self.forward = self.forward.saturating_add(1);
        self.records = self.records.saturating_add(1);
        self.forward
    }

    /// A response, a failure or a reply gets its record.
    pub fn note(&mut self)
        ensures { self.new ≡ noted self.old }
    {
        self.records = self.records.saturating_add(1);
    }

    /// From now on each reply closes its connection behind it.
    pub fn stop(&mut self)
        ensures { self.new ≡ stopping self.old }
    {
        self.closing = true;
    }
}
