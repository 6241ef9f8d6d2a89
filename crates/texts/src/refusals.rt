// The line of a refusal.
ghost use Rattle.base.specs.Buffers.{WroteInRoom};
ghost use Rattle.texts.specs.Buffered.{refusal_room, refusal_text};

use crate::writing::Writer;
use base::Refusal;

// The longest line has a number of three digits and a value of ten: 26 bytes.
pub const REFUSAL_ROOM: usize = 32;

// The number of a refusal, and the value that it returns: a `Refusal` would ask more of callers.
// `refusal_line` makes a text of its own; this one never allocates.
pub fn write_refusal(out: &mut [u8], number: u8, value: u32) -> Result<usize, Refusal>
    ensures { WroteInRoom refusal_room (refusal_text number value) out.old result out.new }
{
    if out.len() < REFUSAL_ROOM {
        return Err(Refusal::BufferTooShort {
            needed: REFUSAL_ROOM as u32,
        });
    }
    let mut line = Writer::new(out);
    line.labelled("refused ", u64::from(number));
    line.labelled(" at ", u64::from(value));
    line.text("\n");
    Ok(line.written())
}
