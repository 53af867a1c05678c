//! What no cache can do otherwise. Each law holds of the definitions, and the functions that bear them do nothing.

ghost use Rattle.std.specs.Prelude.{◌≡◌, ℕ, true, false, List, ◌∷◌, ◌++◌, Some, None};
ghost use Rattle.std.specs.Char.{is_ascii_hexdigit};
ghost use Rattle.std.specs.FinMap.{get};
ghost use Rattle.std.specs.List.{AllPass};
ghost use Rattle.hc_framing.specs.ChunkLines.{CanBecomeChunkLine, NeverHasChunkLine};
ghost use Rattle.hc_head.specs.declared.head.Target.{Target};
ghost use Rattle.hc_update.specs.declared.stored.Stored.{Stored};
ghost use Rattle.hc_incoming.specs.Requests.{HasRequest};
ghost use Rattle.hc_store.specs.declared.putting.Put.{Put};
ghost use Rattle.hc_store.specs.declared.putting.Put.TheVariants as answers;
ghost use Rattle.hc_store.specs.Calls.{Puts, grows, may_put};
ghost use Rattle.hc_store.specs.Entries.{Holdings, may_hold};
ghost use Rattle.hc_service.specs.Agreement.{Agrees, History};
ghost use Rattle.hc_service.specs.Reactions.{Reaction, Reacts, WholeRequest};
ghost use Rattle.hc_service.specs.State.{Connection, OpenNow, State};

/// What a whole request gets at once is one thing, and so is what is stored then: its reply, with all its fields and
/// its mark; or a forward; or that it waits for another one's. So no cache forwards what it may answer, serves what
/// it may not, or leaves the mark off.
pub fn one_reaction()
    ensures { (whole : WholeRequest) (underway : OpenNow) (old new changed : Holdings) (one other : Reaction)
        → Reacts whole underway old one new → Reacts whole underway old other changed → (one ≡ other) × (new ≡ changed) }
{}

/// What may be put is put where that takes no memory, and what sets a cookie isn't where the store keeps no
/// such responses; and each result leaves one store.
pub fn what_takes_no_memory_is_put()
    ensures put { (target : Target) (stored : Stored) (old new : Holdings) (answer : Put)
        → may_put stored old ≡ true → grows target old.entries ≡ false
        → Puts target stored old answer new → answer ≡ answers.Stored }
    ensures cookie { (target : Target) (stored : Stored) (old new : Holdings) (answer : Put)
        → may_hold old.keeps_cookies stored ≡ false → Puts target stored old answer new → answer ≡ answers.SetsCookie }
    ensures one { (target : Target) (stored : Stored) (old new changed : Holdings) (answer : Put)
        → Puts target stored old answer new → Puts target stored old answer changed → new ≡ changed }
{}

/// No request is held back, whatever else is open: where a cache agrees with what has happened, no whole request is
/// unread on a connection on which none awaits its reply.
pub fn no_request_is_held_back()
    ensures { (s : State) (h : History) (c : ℕ) (connection : Connection) → Agrees s h
        → get s.connections c ≡ Some connection → connection.exchange ≡ None → ¬ (HasRequest connection.unread) }
{}

/// Chunk lines are read strictly (RFC 9112 section 7.1): octets that begin with a plus sign, or with digits and a bare
/// line feed, never have one, whatever follows; and where none can come none is awaited.
pub fn chunk_lines_are_read_strictly()
    ensures plus { (octets : List ℕ) → NeverHasChunkLine (43 ∷ octets) }
    ensures line_feed { (digits octets : List ℕ) → AllPass is_ascii_hexdigit digits → NeverHasChunkLine (digits ++ 10 ∷ octets) }
    ensures awaited { (octets : List ℕ) → NeverHasChunkLine octets → ¬ (CanBecomeChunkLine octets) }
{}
