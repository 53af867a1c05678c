//! The first reading of a recording, of which a document is made.

ghost use Rattle.std.specs.Prelude.{◌≡◌, List, [], IfOk, slice_get};
ghost use Rattle.hc_history.specs.declared.wrong.WrongReply.{WrongReply};
ghost use Rattle.hc_report.specs.Kinds.{AreShownIn};
ghost use Rattle.hc_report.specs.Told.{TellsOf};

use crate::retelling::Retelling;
use hc_audit::{JudgedReply, PassedRecord, Witness};
use hc_history::{Finding, Settings, WrongReply};
use hc_index::Index;
use hc_report::Report;
use hc_why::{FoundReply, ReplyAt};
use std::alloc::{AllocError, Global};

/// A report that keeps of which wrong replies more may be told.
pub struct NamingReport {
    alloc: Global,
    report: Report,
    named: Vec<FoundReply>,
}

impl Drop for NamingReport {
    fn drop(self) {
        let NamingReport {
            alloc: _,
            report,
            named,
        } = self;
        drop(report);
        drop(named);
    }
}

impl<I: Index> Witness<I> for NamingReport {
    ghost tells = { λ naming wrongs. TellsOf naming.report wrongs };

    ghost hears = { λ naming h. AreShownIn h naming.report.wrongs.listed.items };

    fn pass(&mut self, passed: &PassedRecord<'_, I>) -> Result<(), AllocError> {
        self.report.pass(passed)
    }

    fn see(&mut self, judged: &JudgedReply<'_, I>) -> Result<(), AllocError> {
        self.report.see(judged)?;
        match judged.finding {
            Finding::Right => Ok(()),
            Finding::Wrong(_) => self.name(judged),
        }
    }
}

impl NamingReport {
    /// The report on an audit by those settings that has read nothing yet.
    pub fn new(alloc: Global, settings: Settings) -> Result<Self, AllocError>
        ensures tells { IfOk result (λ naming. TellsOf naming.report []) }
        ensures hears { IfOk result (λ naming. AreShownIn [] naming.report.wrongs.listed.items) }
    {
        Ok(NamingReport {
            alloc,
            report: Report::new(alloc, settings)?,
            named: Vec::new(alloc),
        })
    }

    /// The first wrong reply.
    pub fn first_wrong(&self) -> Option<WrongReply>
        ensures { (wrongs : List WrongReply) → TellsOf self.now.report wrongs → result ≡ slice_get wrongs 0 }
    {
        self.report.first_wrong()
    }

    /// What tells of the replies that it named, once the recording is read again; that lifetime is lent to what states none,
    /// if one is.
    pub fn into_retelling(self, lent: Option<u32>) -> Result<Retelling, AllocError> {
        let NamingReport {
            alloc,
            report,
            named,
        } = self;
        let mut retelling = Retelling::new(alloc, report, lent);
        retelling.begin_all(named)?;
        Ok(retelling)
    }

    // Keeps a wrong reply, if the report names it.
    fn name<I: Index>(&mut self, judged: &JudgedReply<'_, I>) -> Result<(), AllocError>
        ensures { self.new.report ≡ self.old.report }
    {
        if !self.report.names(judged.position) {
            return Ok(());
        }
        let mut seeker = ReplyAt::new(self.alloc, judged.position);
        seeker.see(judged)?;
        if let Some(found) = seeker.into_found() {
            self.named.push(found)?;
        }
        Ok(())
    }
}
