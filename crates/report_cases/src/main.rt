// Writes reports into memories of many sizes, and shows what the memory then holds. Memory that no
// line has reached shows as `#`.
#![tactic(auto)]

ghost use Rattle.std.specs.Iterator.{IsFinite};

use records::feed::Feed;
use records::harness::Harness;
use report::state::BoardState;
use report::writer::{BoardLines, TurnLines, WriteRefusal};
use std::{fmt, iter};

fn turn_lines<I: Iterator<Item = (u32, u32)>>(
    out: &mut [u8],
    answers: I,
) -> Result<TurnLines, WriteRefusal>
    requires { I.can_next answers × IsFinite (I.remaining answers) }
{
    let mut writer = TurnLines::begin();
    for (answer, kind) in answers {
        writer = writer.turn(out, answer, kind)?;
    }
    Ok(writer)
}

// A save that ends in a stop.
fn save(out: &mut [u8]) -> Result<usize, WriteRefusal> {
    let answers = [
        (0, 0),
        (0, 0),
        (0, 1),
        (0, 0),
        (0, 2),
        (0, 3),
        (0, 5),
        (0, 0),
        (3, 0),
    ];
    let writer = turn_lines(out, answers.into_iter())?.boards();
    let first = Harness {
        pick: 1,
        lifted: 5,
        sum: 9,
    };
    let writer = writer.board(out, 0, BoardState::Stopped, first)?;
    let second = Harness {
        pick: 0,
        lifted: 0,
        sum: 9,
    };
    let writer = writer.board(out, 1, BoardState::Free, second)?;
    Ok(writer.end(out)?.length())
}

// One turn, and a feed drive with a NaN and a negative number.
fn small(out: &mut [u8]) -> Result<usize, WriteRefusal> {
    let writer = turn_lines(out, iter::once((12, 0)))?.boards();
    let drive = Feed {
        pick: 10,
        tension: 0xffff_ffff,
        length: 0xbf80_0000,
    };
    let writer = writer.board(out, 0, BoardState::Lost, drive)?;
    Ok(writer.end(out)?.length())
}

fn many_boards(
    mut writer: BoardLines,
    out: &mut [u8],
    count: u32,
) -> Result<BoardLines, WriteRefusal> {
    let most = Harness {
        pick: 0xffff_ffff,
        lifted: 0xffff_ffff,
        sum: 0xffff_ffff,
    };
    for board in 0..count {
        writer = writer.board(out, board, BoardState::Stopped, most)?;
    }
    Ok(writer)
}

// So many turn lines and board lines, each as long as can be.
fn large(out: &mut [u8], turns: u32, boards: u32) -> Result<usize, WriteRefusal> {
    let writer = turn_lines(out, iter::repeat_n((52, 9), turns as usize))?;
    let writer = many_boards(writer.boards(), out, boards)?;
    Ok(writer.end(out)?.length())
}

// What writing a report came to.
#[derive(Drop)]
struct Outcome(Result<usize, WriteRefusal>);

impl fmt::Display for Outcome {
    fn fmt<W: fmt::Write>(&self, f: &mut fmt::Formatter<W>) -> fmt::Result {
        match self.0 {
            Ok(length) => write!(f, "length {length}"),
            Err(refusal) => write!(f, "refused {}", refusal.number()),
        }
    }
}

fn tell(rt: &HostRuntime, outcome: Outcome, memory: &[u8]) -> anyhow::Result<()> {
    println!(rt; "memory {}: {outcome}", memory.len())?;
    let text = String::from_utf8_lossy(rt.alloc(), memory)?;
    println!(rt; "{text}")?;
    Ok(())
}

fn run(rt: &HostRuntime) -> anyhow::Result<()> {
    let mut memory = vec![in rt.alloc(); b'#'; 110]?;
    tell(rt, Outcome(save(&mut memory)), &memory)?;
    for size in 0..50 {
        let mut memory = vec![in rt.alloc(); b'#'; size]?;
        tell(rt, Outcome(small(&mut memory)), &memory)?;
    }
    for (turns, boards, size) in [
        (4096, 19, 48_000),
        (4097, 19, 48_000),
        (4096, 20, 48_000),
        (4097, 0, 39_853),
        (4096, 0, 39_853),
        (4096, 0, 39_867),
        (4096, 0, 39_868),
    ] {
        let mut memory = vec![in rt.alloc(); b'#'; size]?;
        let outcome = Outcome(large(&mut memory, turns, boards));
        println!(rt; "{turns} turns, {boards} boards, memory {size}: {outcome}")?;
    }
    Ok(())
}

fn main(rt: HostRuntime) -> anyhow::Result<()> {
    run(&rt)
}
