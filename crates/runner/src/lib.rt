// What the program writes for a run file.
#![tactic(auto)]

ghost use Rattle.std.specs.Prelude.{◌≡◌, ◌+◌, take, IfOk, IfSome, string_bytes, vec_items};
ghost use Rattle.runfile.specs.Files.{file_of};
ghost use Rattle.runner.specs.Answers.{summary, refusal_line, answer_to};

use lines::loom::{Loom, StoreKind};
use runfile::file::{MAX_BYTES, ReadError, RunFile, read};
use runfile::refusal::Refusal;
use std::alloc::{AllocError, Global};
use std::io;
use std::io::Read;

// The bytes of a run file, as far as they decide what it means: one byte past what a run file may
// have tells a file that is too long, and no more is asked for.
pub fn input<R: Read + Drop>(heap: Global, reader: R) -> io::Result<Vec<u8>>
    ensures bytes { IfOk result (λ held. IfSome (R.remaining reader) (λ all. vec_items held ≡ take (MAX_BYTES + 1) all)) }
    ensures meaning { IfOk result (λ held. IfSome (R.remaining reader) (λ all. file_of (vec_items held) ≡ file_of all)) }
{
    let mut bytes = Vec::new(heap);
    reader.take(MAX_BYTES as u64 + 1).read_to_end(&mut bytes)?;
    Ok(bytes)
}

// REFUSED, the number and the line.
pub fn refusal_line(heap: Global, refusal: Refusal) -> Result<String, AllocError>
    ensures { IfOk result (λ s. string_bytes s ≡ refusal_line refusal) }
{
    format!(in heap; "REFUSED {} {}\n", refusal.number(), refusal.line())
}

// Says in one line what a run file holds.
pub fn summary_line(heap: Global, loom: Loom, turns: usize) -> Result<String, AllocError>
    ensures { IfOk result (λ s. string_bytes s ≡ summary loom turns) }
{
    // (By formats of its own: what a `Display` writes is told only where writing succeeds.)
    let boards = loom.boards;
    let part = loom.part.name();
    match loom.store {
        StoreKind::Slots => format!(in heap;
            "{boards} boards, slot store, {part} records, {turns} turns\n"
        ),
        StoreKind::Journal { places } => {
            format!(in heap;
                "{boards} boards, journal of {places} places, {part} records, {turns} turns\n"
            )
        }
    }
}

// What the program writes for the bytes of a run file.
pub fn answer(heap: Global, bytes: &[u8]) -> Result<String, AllocError>
    ensures { IfOk result (λ s. string_bytes s ≡ answer_to (file_of bytes.now)) }
{
    match read(heap, bytes) {
        Ok(RunFile { loom, turns }) => summary_line(heap, loom, turns.len()),
        Err(ReadError::Refused(refusal)) => refusal_line(heap, refusal),
        Err(ReadError::NoMemory) => Err(AllocError),
    }
}

#[cfg(test)]
mod tests {
    use super::*;
    use std::test::Fail;

    #[test]
    fn input_holds_the_bytes_of_a_file(rt: HostRuntime) -> Result<(), Fail> {
        let file = b"LOOM 1 S 0 H\nC 0\n";
        let held = input(rt.alloc(), file.as_slice())?;
        assert_eq!(rt; held.as_slice(), file.as_slice());
        Ok(())
    }

    #[test]
    fn input_ends_one_byte_past_a_file(rt: HostRuntime) -> Result<(), Fail> {
        let held = input(rt.alloc(), io::repeat(b'x'))?;
        assert_eq!(rt; held.len(), 32_769);
        Ok(())
    }
}
