// Lines that ask for a call.
ghost use Rattle.std.specs.Prelude.{IfOk, IsErrOf};
ghost use Rattle.runs.specs.Runs as calls;
ghost use Rattle.runs.specs.Traces.{call_of};
ghost use Rattle.lines.specs.Calls.{line_meaning, no_call};
ghost use Rattle.lines.specs.Lines.{LineOf, Reads};
ghost use Rattle.lines.specs.declared.error.LineError.TheVariants.{NotACall};

use crate::LineError;
use crate::fields::{read_number, read_words};
use runs::Call;
use std::alloc::Global;

// The call that a line asks for, or none: an empty line and a comment are passed over. It is given without its line feed.
pub fn read_line(heap: Global, text: &[u8]) -> Result<Option<Call>, LineError>
    ensures read { IfOk result (λ read. Reads text.now (line_meaning read)) }
    ensures no_call { IsErrOf result NotACall → Reads text.now no_call }
{
    if text.is_empty() || text[0] == b'#' {
        return Ok(None);
    }
    Ok(Some(read_call(heap, text)?))
}

// No name begins with another, so the first that fits is the one.
fn read_call(heap: Global, text: &[u8]) -> Result<Call, LineError>
    ensures call { IfOk result (λ call. LineOf (call_of call) text.now) }
    ensures no_call { IsErrOf result NotACall → (c : calls.Call) → LineOf c text.now → ⊥ }
{
    if let Some(fields) = text.strip_prefix(b"offer") {
        return Ok(Call::Offer(read_words(heap, fields)?));
    }
    if let Some(fields) = text.strip_prefix(b"propose") {
        let room = read_number(fields).ok_or(LineError::NotACall)?;
        return Ok(Call::Propose { room });
    }
    if let Some(fields) = text.strip_prefix(b"hold") {
        return Ok(Call::Hold(read_words(heap, fields)?));
    }
    if let Some(fields) = text.strip_prefix(b"status") {
        let atom = read_number(fields).ok_or(LineError::NotACall)?;
        return Ok(Call::Status { atom });
    }
    Err(LineError::NotACall)
}
