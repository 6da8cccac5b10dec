//! The first line of a journal.
ghost use Rattle.std.specs.Prelude.{◌≡◌, ◌≢◌, ◌++◌, ◌∷◌, ℕ, List, codes, IfErr, IfOk, OnErr};
ghost use Rattle.hex.specs.Hex.{encode_lower};
ghost use Rattle.journal.specs.Lines.{IsLine, recovered_lines};
ghost use Rattle.durable.specs.Heads.{FindsLines, IsOfHead};

use crate::opening::JournalFault;
use journal::next_entry;
use std::alloc::{AllocError, Global};

/// The text with which the first line of a journal begins.
const HEAD: &[u8] = b"mmrepo-journal 1 ";

/// The byte that ends a line.
const NEWLINE: u8 = b'\n';

/// The first line of a journal, which ends with a digest of the metamodel's document in hexadecimal. Fails only if memory is refused.
pub fn head_of(alloc: Global, digest: &[u8]) -> Result<Vec<u8>, AllocError>
    ensures head { IfOk result (λ v. v.items ≡ codes "mmrepo-journal 1 " ++ encode_lower digest.now) }
    ensures line { IfOk result (λ v. IsLine v.items) }
{
    let text = hex::encode(alloc, digest)?;
    let mut head = Vec::new(alloc);
    head.extend_from_slice(HEAD)?;
    head.extend_from_slice(text.as_bytes())?;
    Ok(head)
}

/// Whether a crash that came before the head was written, or while the head was written, may have left a file with the content `bytes`.
/// This function is called only for bytes that stand for no line.
fn is_unbegun(bytes: &[u8], head: &[u8]) -> bool {
    match bytes {
        [] => true,
        // The write of the text after the newline was interrupted.
        [NEWLINE, rest @ ..] => rest.len().saturating_sub(2) <= head.len(),
        // The write of the first byte was interrupted, so this byte may be any byte. It was to be a newline, or the mark with which the
        // entry of a line begins. A later cut of the file may have been interrupted too.
        [_, rest @ ..] => match rest.strip_prefix(head) {
            Some(more) => matches!(more, [] | [NEWLINE] | [NEWLINE, NEWLINE]),
            None => head.starts_with(rest),
        },
    }
}

/// The bytes of a file after its first line, if this line is `head`; `None` if the journal is still to be begun.
///
/// Fails with `OtherMetamodel` if the first line begins as a head does, but is not `head`: the journal was begun with a different metamodel
/// document. Fails with `NoJournal` if the first line is no head; and also if the file has no line, and is no file that a crash may leave
/// while a journal is begun.
pub fn behind_head<'a>(bytes: &'a [u8], head: &[u8]) -> Result<Option<&'a [u8]>, JournalFault>
    ensures found { IfOk result (λ found. FindsLines found bytes.now head.now) }
    ensures kind { IfErr result IsOfHead }
    ensures other { OnErr result ((rest : List (List ℕ)) → recovered_lines bytes.now ≢ head.now ∷ rest) }
{
    match next_entry(bytes) {
        Some((line, rest)) => {
            if line == head {
                Ok(Some(rest))
            } else if line.starts_with(HEAD) {
                Err(JournalFault::OtherMetamodel)
            } else {
                Err(JournalFault::NoJournal)
            }
        }
        None => {
            if is_unbegun(bytes, head) {
                Ok(None)
            } else {
                Err(JournalFault::NoJournal)
            }
        }
    }
}
