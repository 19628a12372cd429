// A whole run file: its loom and all its turns, or the refusal.
ghost use Rattle.std.specs.Prelude.{◌≡◌};
ghost use Rattle.runfile.specs.Files.{file_of, turns_from};
ghost use Rattle.runfile.specs.Readers.{Read, ReadTurns, ReadsBack, Spelled};
ghost use Rattle.runfile.specs.declared.file.ReadError.TheVariants.{Refused as IsRefused, NoMemory as IsNoMemory};

use crate::reader::{FileReader, TurnReader};
use crate::refusal::Refusal;
use lines::loom::Loom;
use std::alloc::{AllocFailed, Global};
use turns::turn::Turn;

// the most bytes that a run file may have
pub const MAX_BYTES: usize = 32_768;

#[derive(Drop)]
pub struct RunFile {
    pub loom: Loom,
    pub turns: Vec<Turn>,
}

// Why a file was not read: it is refused, or there was no memory for its turns.
#[derive(Clone, Copy, PartialEq, Eq, Debug)]
pub enum ReadError {
    Refused(Refusal),
    NoMemory,
}

impl From<Refusal> for ReadError {
    ghost from_gives = { λ e r. r ≡ IsRefused e };

    fn from(e: Refusal) -> ReadError {
        ReadError::Refused(e)
    }
}

impl<T: Drop> From<AllocFailed<T>> for ReadError {
    ghost from_gives = { λ _ r. r ≡ IsNoMemory };

    fn from(_e: AllocFailed<T>) -> ReadError {
        ReadError::NoMemory
    }
}

// All turns that are still to come. (No `for`: at a refusal the reader stays and would refuse
// again, so as an iterator it would not end.)
fn rest_of(heap: Global, mut reader: TurnReader) -> Result<Vec<Turn>, ReadError>
    requires { reader.line ≡ 2 }
    ensures { ReadTurns result (turns_from 4096 reader.entry) }
{
    let mut turns = Vec::new(heap);
    while let Some(next) = reader.next_turn()? {
        turns.push(next.turn)?;
    }
    Ok(turns)
}

// Reads what the bytes mean. By the laws, they are taken just where they spell a loom and turns
// within bounds, and are then read as that loom and those turns.
#[tactic(auto, using(crate::proofs::SpelledFiles::reads_back, crate::proofs::SpelledFiles::spelled))]
pub fn read(heap: Global, bytes: &[u8]) -> Result<RunFile, ReadError>
    ensures meant { Read result (file_of bytes.now) }
    ensures reads_back { ReadsBack bytes.now result }
    ensures spelled { Spelled bytes.now result }
{
    if bytes.len() > MAX_BYTES {
        return Err(Refusal::TooLong.into());
    }
    let (loom, reader) = FileReader::new(bytes).first_line()?;
    let turns = rest_of(heap, reader)?;
    Ok(RunFile { loom, turns })
}
