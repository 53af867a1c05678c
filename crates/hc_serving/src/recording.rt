//! The file that a proxy records to.

ghost use Rattle.std.specs.Prelude.{◌≡◌, IfErr, IfOk, is_some};
ghost use Rattle.hc_transcript.specs.Records.{opening};
ghost use Rattle.hc_service.specs.Sending.{recorded_format};
ghost use Rattle.hc_serving.specs.Proxies.{IsOfMaking, OfRecorder};

use crate::claim::Claim;
use crate::fault::ServeFault;
use crate::recordable::{Unrecordable, refused_kind};
use crate::serving::opened;
use hc_links::{Buffered, Lapsing, Link};
use hc_sockets::{Recording, SystemLink};
use hc_transcript::Format;
use std::alloc::Global;
use std::fs::OpenFile;
use std::io;
use std::io::{Read, Write};
use std::rt::Files;

/// Where something is recorded, and how far.
#[derive(Clone, Copy)]
pub struct RecordTo<'a> {
    /// The file.
    pub file: &'a str,
    /// Whether serving ends where a record can't be written; else the recording alone does.
    pub strict: bool,
    /// Behind how many octets the recording ends, those of its opening among them; it has no end without it. It ends with
    /// the records of the batch in which it gets so many.
    pub limit: Option<u64>,
}

/// What a proxy records by: a file behind a buffer, which may fall silent.
pub type FileRecorder<F> = Lapsing<Buffered<SystemLink<Recording<F>>>>;

/// What records there, if anywhere, behind the opening of a transcript.
pub(crate) fn new_recorder<R: Files + AllocGlobal>(
    rt: &R,
    recording: Option<RecordTo<'_>>,
) -> Result<Option<FileRecorder<R::File>>, ServeFault>
where
    R::File: Claim,
    ensures unmade { IfErr result IsOfMaking }
    ensures some { IfOk result (λ recorder. is_some recorder ≡ is_some recording.entry) }
    ensures begun { IfOk result (λ recorder. OfRecorder ⟦<FileRecorder<R::File> as Link>⟧.has_got recorder (opening recorded_format)
        × OfRecorder ⟦<FileRecorder<R::File> as Link>⟧.has_kept recorder (opening recorded_format)) }
{
    let Some(to) = recording else {
        return Ok(None);
    };
    let file = begun(rt, to.file)?;
    Ok(Some(recorder_to(rt.alloc(), file, to)))
}

/// What records to that file, which has the opening of a transcript.
fn recorder_to<F: Read + Write>(alloc: Global, file: F, to: RecordTo<'_>) -> FileRecorder<F>
    ensures got { ⟦<FileRecorder<F> as Link>⟧.has_got result (opening recorded_format) }
    ensures kept { ⟦<FileRecorder<F> as Link>⟧.has_kept result (opening recorded_format) }
{
    let written = Format::Second.opening().len() as u64;
    let buffered = Buffered::new(alloc, SystemLink::new(Recording { file }));
    Lapsing::new(buffered, written, to.limit, to.strict)
}

/// The file, claimed, and then with the opening of a transcript. One that isn't empty stays as it is.
fn begun<R: Files>(rt: &R, name: &str) -> Result<R::File, ServeFault>
where
    R::File: Claim,
    ensures { IfErr result IsOfMaking }
{
    let mut file = match opened(rt, name) {
        Ok(file) => file,
        Err(reason) => return Err(ServeFault::Record(reason)),
    };
    match begin(rt, &mut file) {
        Ok(None) => Ok(file),
        Ok(Some(kind)) => Err(ServeFault::Unrecordable(kind)),
        Err(reason) => Err(ServeFault::Record(reason)),
    }
}

/// Claims the file, and writes the opening of a transcript to it; or returns what it is, if it is one that is never recorded
/// to: another one may have got its name since that was asked for.
fn begin<R: Files>(rt: &R, file: &mut R::File) -> io::Result<Option<Unrecordable>>
where
    R::File: Claim,
{
    let found = file.metadata()?;
    let kind = refused_kind(rt, &found);
    if kind.is_some() {
        return Ok(kind);
    }
    if found.is_file() {
        file.claim()?;
        // What another program recorded until now is seen only behind the claim.
        if file.metadata()?.len() > 0 {
            let reason = "it isn't empty, and a recording is never emptied";
            return Err(io::Error::other(reason));
        }
    }
    file.write_all(Format::Second.opening())?;
    Ok(None)
}
