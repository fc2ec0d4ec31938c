//! The form in which the log keeps a line of the input.
ghost use Rattle.std.specs.Prelude.{◌≡◌, IfOk};
ghost use Rattle.kept_log.specs.Lines.{IsLine};
ghost use Rattle.kept_session.specs.Lines.{behind_client, line_for};

use rapid_text::{OutOfMemory, trim};
use report::{Piece, append_pieces};
use std::alloc::Global;

/// The client's number, a blank, and these words; empty if there are no words.
fn behind_client(alloc: Global, client: u32, words: &[u8]) -> Result<Vec<u8>, OutOfMemory>
    ensures form { IfOk result (λ line. line.items ≡ behind_client client words.now) }
    ensures line { IsLine words.now → IfOk result (λ line. IsLine line.items) }
{
    let mut line = Vec::new(alloc);
    if words.is_empty() {
        return Ok(line);
    }
    append_pieces(
        &mut line,
        &[
            Piece::Number(u64::from(client)),
            Piece::Words(b" "),
            Piece::Words(words),
        ],
    )?;
    Ok(line)
}

/// A line without blanks at its ends. If `client` is given, its number comes first. An empty line stays empty.
pub(crate) fn line_for(
    alloc: Global,
    client: Option<u32>,
    raw: &[u8],
) -> Result<Vec<u8>, OutOfMemory>
    ensures form { IfOk result (λ line. line.items ≡ line_for client raw.now) }
    ensures line { IsLine raw.now → IfOk result (λ line. IsLine line.items) }
{
    let words = trim(raw);
    match client {
        Some(client) => behind_client(alloc, client, words),
        None => Ok(words.to_vec(alloc)?),
    }
}
