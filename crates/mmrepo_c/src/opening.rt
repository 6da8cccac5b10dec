//! Begins a session over the metamodel of a document.
ghost use Rattle.std.specs.Prelude.{IfErr, IfOk, Err};
ghost use Rattle.mm_check.specs.Documents.{Gives};
ghost use Rattle.mmrepo_c.specs.Calls.{Accepts};

use crate::session::{Session, counters};
use mm_check::check_document;
use mm_types::MetaFault;
use std::alloc::Global;

/// A session over the metamodel of a document. Fails with the first fault of the document, and with `Memory` if memory is refused.
pub(crate) fn begun(alloc: Global, document: &[u8]) -> Result<Box<Session>, MetaFault>
    ensures ok { IfOk result (λ b. Accepts document.now b.value) }
    ensures err { IfErr result (λ f. Gives document.now (Err f)) }
{
    let Ok(boxes) = counters(alloc) else {
        return Err(MetaFault::Memory);
    };
    let meta = check_document(alloc, document)?;
    let Ok(session) = Session::new(alloc, meta, boxes) else {
        return Err(MetaFault::Memory);
    };
    match Box::new(alloc, session) {
        Ok(session) => Ok(session),
        Err(_) => Err(MetaFault::Memory),
    }
}
