//! A recorder that may fall silent.

ghost use Rattle.std.specs.Prelude.{◌≡◌, ◌<◌, ◌+◌, ℕ, true, false, min, List, None, Some, Ok, IfErr, IfOk, IsSome, OnOk, length};
ghost use Rattle.std.specs.Option.{option_map};
ghost use Rattle.hc_links.specs.declared.lapsing.Silence.TheVariants.{Failed};
ghost use Rattle.hc_links.specs.Lapses.{FallsSilentFor, GotBeneath, IsFull, KeptBeneath, ReadBeneath, failures_beneath, is_full, lapse_for, lapse_if_full};
ghost use Rattle.hc_links.specs.Links.{Counts, CountsSent, CountsFailure, Reads, Writes, greatest_count};

use crate::link::{Link, LinkFailure};
use crate::recorder::Recorder;

/// Why a recorder is silent.
#[derive(Clone, Copy)]
pub enum Silence {
    /// The recorder beneath failed.
    Failed,
    /// As many octets were written as may be.
    Full,
}

/// How a recorder fell silent.
#[derive(Clone, Copy)]
pub(crate) struct Lapse {
    why: Silence,
    /// How often the recorder beneath had failed before.
    failures: u64,
}

/// A recorder over another, beneath it. Where a write or a flush beneath fails, it falls silent, unless it is strict; and
/// so it does behind a flush by which as many octets were written as may be, strict or not. Once it is silent it takes all
/// that is written to it and passes none of it on, for ever: there is no gap in what the recorder beneath got, which is a
/// beginning of what was written. A strict one fails where the recorder beneath does.
///
/// Once it is silent it may tell of any octets that were written to it that they stand for good. What it told of that
/// before stands for good still, and where it is full all that the recorder beneath got does.
#[derive(Drop)]
pub struct Lapsing<R: Recorder> {
    recorder: R,
    strict: bool,
    limit: Option<u64>,
    /// How many octets were written, as far as can be counted.
    written: u64,
    lapse: Option<Lapse>,
}

impl<R: Recorder> Lapsing<R> {
    /// One over that recorder, to which so many octets were written before. It falls silent behind the flush by which
    /// `limit` octets were written, those before among them.
    pub fn new(recorder: R, written: u64, limit: Option<u64>, strict: bool) -> Self
        ensures recorder { result.recorder ≡ recorder }
        ensures terms { (result.written ≡ written) × (result.limit ≡ limit) × (result.strict ≡ strict) }
        ensures speaks { result.lapse ≡ None }
    {
        Lapsing {
            recorder,
            strict,
            limit,
            written,
            lapse: None,
        }
    }

    /// The recorder beneath.
    pub fn recorder(&self) -> &R
        ensures { result.now ≡ self.now.recorder }
    {
        &self.recorder
    }

    /// Why it is silent, if it is.
    pub fn silence(&self) -> Option<Silence>
        ensures { result ≡ option_map (λ lapse. lapse.why) self.now.lapse }
    {
        match self.lapse {
            Some(lapse) => Some(lapse.why),
            None => None,
        }
    }

    /// Falls silent since the recorder beneath failed, which had failed so often before. A strict one fails.
    fn fail(&mut self, failures: u64) -> Result<(), LinkFailure>
        ensures recorder { self.new.recorder ≡ self.old.recorder }
        ensures terms { (self.new.strict ≡ self.old.strict) × (self.new.limit ≡ self.old.limit) × (self.new.written ≡ self.old.written) }
        ensures strict { IfErr result (λ _. (self.old.strict ≡ true) × (self.new.lapse ≡ self.old.lapse)) }
        ensures silent { IfOk result (λ _. (self.old.strict ≡ false) × (self.new.lapse ≡ Some (lapse_for Failed failures))) }
    {
        if self.strict {
            return Err(LinkFailure);
        }
        self.lapse = Some(Lapse {
            why: Silence::Failed,
            failures,
        });
        Ok(())
    }

    /// How it falls silent if it is full, where the recorder beneath had failed so often before.
    fn lapse_if_full(&self, failures: u64) -> Option<Lapse>
        ensures { result ≡ lapse_if_full self.now.limit self.now.written failures }
    {
        let limit = self.limit?;
        if self.written < limit {
            return None;
        }
        Some(Lapse {
            why: Silence::Full,
            failures,
        })
    }
}

impl<R: Recorder> Link for Lapsing<R> {
    ghost has_given = { λ lapsing. R.has_given lapsing.recorder };

    // Once it is silent, the recorder beneath got a beginning of what was written.
    ghost has_got = { λ lapsing. GotBeneath R.has_got R.has_kept lapsing.lapse lapsing.recorder };

    ghost was_read = { λ lapsing. ReadBeneath R.was_read lapsing.lapse lapsing.recorder };

    // Once it is silent, what was written to it may be told to stand for good.
    ghost has_kept = { λ lapsing. KeptBeneath R.has_got R.has_kept lapsing.lapse lapsing.recorder };

    ghost count = { λ lapsing. failures_beneath R.count lapsing.lapse lapsing.recorder };

    /// Reads the recorder beneath, unless it is silent: then no octet comes.
    fn read(&mut self, buffer: &mut [u8]) -> Result<usize, LinkFailure>
        requires { failures_beneath R.count self.old.lapse self.old.recorder < greatest_count }
        ensures given { Reads (R.has_given self.old.recorder) (R.has_given self.new.recorder) result buffer.new }
        ensures got { (octets : List ℕ) → GotBeneath R.has_got R.has_kept self.old.lapse self.old.recorder octets → GotBeneath R.has_got R.has_kept self.new.lapse self.new.recorder octets }
        ensures kept { (kept : List ℕ) → KeptBeneath R.has_got R.has_kept self.old.lapse self.old.recorder kept → KeptBeneath R.has_got R.has_kept self.new.lapse self.new.recorder kept }
        ensures reads { (times : ℕ) → ReadBeneath R.was_read self.old.lapse self.old.recorder times → ReadBeneath R.was_read self.new.lapse self.new.recorder (1 + times) }
        ensures count { Counts result (failures_beneath R.count self.old.lapse self.old.recorder) (failures_beneath R.count self.new.lapse self.new.recorder) }
        ensures silent { IsSome self.old.lapse → (self.new ≡ self.old) × (result ≡ Ok 0) }
        // It doesn't fall silent for that.
        ensures terms { (self.new.lapse ≡ self.old.lapse) × (self.new.strict ≡ self.old.strict) × (self.new.limit ≡ self.old.limit) × (self.new.written ≡ self.old.written) }
    {
        if self.lapse.is_some() {
            return Ok(0);
        }
        self.recorder.read(buffer)
    }

    /// Writes a beginning of the octets, as a link does, unless it is silent.
    fn write(&mut self, octets: &[u8]) -> Result<usize, LinkFailure>
        requires { failures_beneath R.count self.old.lapse self.old.recorder < greatest_count }
        ensures given { (given : List ℕ) → R.has_given self.old.recorder given → R.has_given self.new.recorder given }
        ensures got { Writes (GotBeneath R.has_got R.has_kept self.old.lapse self.old.recorder) (GotBeneath R.has_got R.has_kept self.new.lapse self.new.recorder) result octets.now }
        ensures kept { (kept : List ℕ) → KeptBeneath R.has_got R.has_kept self.old.lapse self.old.recorder kept → KeptBeneath R.has_got R.has_kept self.new.lapse self.new.recorder kept }
        // What stood for good beneath does still.
        ensures stands { (kept : List ℕ) → R.has_kept self.old.recorder kept → R.has_kept self.new.recorder kept }
        ensures reads { (times : ℕ) → ReadBeneath R.was_read self.old.lapse self.old.recorder times → ReadBeneath R.was_read self.new.lapse self.new.recorder times }
        ensures count { Counts result (failures_beneath R.count self.old.lapse self.old.recorder) (failures_beneath R.count self.new.lapse self.new.recorder) }
        // Once it is silent it takes all, and nothing changes.
        ensures silent { IsSome self.old.lapse → (self.new ≡ self.old) × (result ≡ Ok (length octets.now)) }
        // It falls silent only where the recorder beneath fails.
        ensures falls { self.old.lapse ≡ None → FallsSilentFor self.old.strict (CountsFailure (R.count self.old.recorder) (R.count self.new.recorder)) false self.new.lapse }
        // It fails only where it is strict, and speaks on then.
        ensures strict { IfErr result (λ _. (self.old.strict ≡ true) × (self.new.lapse ≡ None)) }
        // And a strict one passes no failure of the recorder beneath over.
        ensures passes { self.old.strict ≡ true → OnOk result (R.count self.new.recorder ≡ R.count self.old.recorder) }
        // As long as it speaks each octet is counted, and no other.
        ensures written { self.new.lapse ≡ None → IfOk result (λ count. self.new.written ≡ min (self.old.written + count) greatest_count) }
        ensures unwritten { IfErr result (λ _. self.new.written ≡ self.old.written) }
        ensures terms { (self.new.strict ≡ self.old.strict) × (self.new.limit ≡ self.old.limit) }
    {
        if self.lapse.is_some() {
            return Ok(octets.len());
        }
        let failures = self.recorder.failures();
        match self.recorder.write(octets) {
            Ok(count) => {
                self.written = self.written.saturating_add(count as u64);
                Ok(count)
            }
            Err(LinkFailure) => {
                self.fail(failures)?;
                Ok(octets.len())
            }
        }
    }

    /// Ends what is written to the recorder beneath, unless it is silent.
    fn end(&mut self)
        ensures given { (given : List ℕ) → R.has_given self.old.recorder given → R.has_given self.new.recorder given }
        ensures got { (octets : List ℕ) → GotBeneath R.has_got R.has_kept self.old.lapse self.old.recorder octets → GotBeneath R.has_got R.has_kept self.new.lapse self.new.recorder octets }
        ensures kept { (kept : List ℕ) → KeptBeneath R.has_got R.has_kept self.old.lapse self.old.recorder kept → KeptBeneath R.has_got R.has_kept self.new.lapse self.new.recorder kept }
        ensures reads { (times : ℕ) → ReadBeneath R.was_read self.old.lapse self.old.recorder times → ReadBeneath R.was_read self.new.lapse self.new.recorder times }
        ensures count { R.count self.new.recorder ≡ R.count self.old.recorder }
        ensures silent { IsSome self.old.lapse → self.new ≡ self.old }
        // It doesn't fall silent for that.
        ensures terms { (self.new.lapse ≡ self.old.lapse) × (self.new.strict ≡ self.old.strict) × (self.new.limit ≡ self.old.limit) × (self.new.written ≡ self.old.written) }
    {
        if self.lapse.is_some() {
            return;
        }
        self.recorder.end();
    }

    fn failures(&self) -> u64 {
        match self.lapse {
            Some(lapse) => lapse.failures,
            None => self.recorder.failures(),
        }
    }
}

impl<R: Recorder> Recorder for Lapsing<R> {
    /// Lets all that was written stand for good, unless it is silent. If it is full by then, it falls silent.
    fn flush(&mut self) -> Result<(), LinkFailure>
        ensures given { (given : List ℕ) → R.has_given self.old.recorder given → R.has_given self.new.recorder given }
        ensures got { (octets : List ℕ) → GotBeneath R.has_got R.has_kept self.old.lapse self.old.recorder octets → GotBeneath R.has_got R.has_kept self.new.lapse self.new.recorder octets }
        ensures kept { (kept : List ℕ) → KeptBeneath R.has_got R.has_kept self.old.lapse self.old.recorder kept → KeptBeneath R.has_got R.has_kept self.new.lapse self.new.recorder kept }
        ensures all { OnOk result ((octets : List ℕ) → GotBeneath R.has_got R.has_kept self.old.lapse self.old.recorder octets → KeptBeneath R.has_got R.has_kept self.new.lapse self.new.recorder octets) }
        // What stood for good beneath does still.
        ensures stands { (kept : List ℕ) → R.has_kept self.old.recorder kept → R.has_kept self.new.recorder kept }
        ensures reads { (times : ℕ) → ReadBeneath R.was_read self.old.lapse self.old.recorder times → ReadBeneath R.was_read self.new.lapse self.new.recorder times }
        ensures count { CountsSent result (failures_beneath R.count self.old.lapse self.old.recorder) (failures_beneath R.count self.new.lapse self.new.recorder) }
        // Once it is silent it flushes nothing, and nothing changes.
        ensures silent { IsSome self.old.lapse → (self.new ≡ self.old) × (result ≡ Ok tt) }
        // Where it falls silent as it is full, all that was written by then stands for good beneath.
        ensures full { self.old.lapse ≡ None → IsFull self.new.lapse → (octets : List ℕ) → R.has_got self.old.recorder octets → R.has_kept self.new.recorder octets }
        // It falls silent only where the recorder beneath fails, or it is full.
        ensures falls { self.old.lapse ≡ None → FallsSilentFor self.old.strict (CountsFailure (R.count self.old.recorder) (R.count self.new.recorder)) (is_full self.old.limit self.old.written) self.new.lapse }
        // And where it is full it does.
        ensures ends { self.new.lapse ≡ None → OnOk result (is_full self.old.limit self.old.written ≡ false) }
        // It fails only where it is strict, and speaks on then.
        ensures strict { IfErr result (λ _. (self.old.strict ≡ true) × (self.new.lapse ≡ None)) }
        // And a strict one passes no failure of the recorder beneath over, full or not.
        ensures passes { self.old.strict ≡ true → OnOk result (R.count self.new.recorder ≡ R.count self.old.recorder) }
        ensures terms { (self.new.strict ≡ self.old.strict) × (self.new.limit ≡ self.old.limit) × (self.new.written ≡ self.old.written) }
    {
        if self.lapse.is_some() {
            return Ok(());
        }
        let failures = self.recorder.failures();
        match self.recorder.flush() {
            Ok(()) => {
                self.lapse = self.lapse_if_full(failures);
                Ok(())
            }
            Err(LinkFailure) => self.fail(failures),
        }
    }
}
