// Bytes put at a place of lent memory.
ghost use Rattle.std.specs.Prelude.{◌≡◌, ◌+◌, cond, length, Ok, Err};
ghost use Rattle.report.specs.Writers.{fits, after};
ghost use Rattle.report.specs.declared.writer.WriteRefusal.TheVariants.{NoRoom};

use crate::writer::WriteRefusal;

// Writes the bytes where they fit, and answers with the place after them; else writes nothing.
pub fn put_bytes(out: &mut [u8], at: usize, bytes: &[u8]) -> Result<usize, WriteRefusal>
    ensures answer { result ≡ cond (fits at bytes.now out.old) (Ok (at + length bytes.now)) (Err NoRoom) }
    ensures memory { out.new ≡ after result at bytes.now out.old }
{
    let room = out.len();
    let end = at
        .checked_add(bytes.len())
        .filter(|end| *end <= room)
        .ok_or(WriteRefusal::NoRoom)?;
    out[at..end].copy_from_slice(bytes);
    Ok(end)
}
