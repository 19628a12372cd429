// Runs stores by commands on standard input, one to a line, and writes what each answers.
// `slots places boards` and `journal places boards` make a store and give it to the commands that follow: `put p n` puts the
// record of pick n for board p, `keep p`, `drop p`, `standing p`, `pending p` and `spare` do and ask
// what their names say. A refusal is written as its number.
#![tactic(auto)]

use anyhow::anyhow;
use journal::entry::{Entry, EntryKind};
use journal::memory::Journal;
use records::harness::Harness;
use records::part::Part;
use std::fmt;
use store::refusal::{MakeRefusal, StoreRefusal};
use store::slots::{Slot, SlotStore};
use store::traits::Store;

#[derive(Clone, Copy)]
enum Command {
    Put { board: usize, pick: u32 },
    Keep { board: usize },
    Discard { board: usize },
    Standing { board: usize },
    Pending { board: usize },
    Spare,
}

// what a command that is not refused answers
#[derive(Clone, Copy)]
enum Answer {
    Taken,
    Stands { pick: u32 },
    Pending { is: bool },
    Spare { puts: usize },
}

impl fmt::Display for Answer {
    fn fmt<W: fmt::Write>(&self, f: &mut fmt::Formatter<W>) -> fmt::Result {
        match self {
            Answer::Taken => f.write_str("taken 0"),
            Answer::Stands { pick } => write!(f, "stands {pick}"),
            Answer::Pending { is } => write!(f, "pending {}", u32::from(*is)),
            Answer::Spare { puts } => write!(f, "spare {puts}"),
        }
    }
}

fn picked(pick: u32) -> Harness {
    Harness {
        pick,
        lifted: 0,
        sum: 0,
    }
}

// A word and up to two numbers.
fn words(line: &str) -> anyhow::Result<(&str, usize, u32)> {
    let mut parts = line.split(' ');
    let word = parts.next().unwrap_or("");
    let first = parts.next().map_or(Ok(0), |text| text.parse::<usize>())?;
    let second = parts.next().map_or(Ok(0), |text| text.parse::<u32>())?;
    Ok((word, first, second))
}

fn read(line: &str) -> anyhow::Result<Command> {
    let (word, board, pick) = words(line)?;
    match word {
        "put" => Ok(Command::Put { board, pick }),
        "keep" => Ok(Command::Keep { board }),
        "drop" => Ok(Command::Discard { board }),
        "standing" => Ok(Command::Standing { board }),
        "pending" => Ok(Command::Pending { board }),
        "spare" => Ok(Command::Spare),
        _ => Err(anyhow!("no such command")),
    }
}

// Does one command to any store of harness records.
fn answer_to<S: Store<Record = Harness>>(
    store: &mut S,
    command: Command,
) -> Result<Answer, StoreRefusal> {
    match command {
        Command::Put { board, pick } => store.put(board, picked(pick)).map(|()| Answer::Taken),
        Command::Keep { board } => store.keep(board).map(|()| Answer::Taken),
        Command::Discard { board } => store.discard(board).map(|()| Answer::Taken),
        Command::Standing { board } => store
            .standing(board)
            .map(|state| Answer::Stands { pick: state.pick }),
        Command::Pending { board } => store.is_pending(board).map(|is| Answer::Pending { is }),
        Command::Spare => Ok(Answer::Spare {
            puts: store.spare(),
        }),
    }
}

// the kinds of store
#[derive(Clone, Copy)]
enum Kind {
    Slots,
    Journal,
}

// The kind of store that a line makes, if it makes one.
fn made_by(line: &str) -> Option<Kind> {
    if line.starts_with("slots ") {
        Some(Kind::Slots)
    } else if line.starts_with("journal ") {
        Some(Kind::Journal)
    } else {
        None
    }
}

fn refused(rt: &HostRuntime, line: &str, number: u32) -> anyhow::Result<()> {
    println!(rt; "{line}: refused {number}")?;
    Ok(())
}

// A store that was made or refused, and the commands that follow, up to the next line that makes one.
fn cases<S: Store<Record = Harness> + Drop>(
    rt: &HostRuntime,
    line: &str,
    made: Result<S, MakeRefusal>,
    rest: &[String],
) -> anyhow::Result<()> {
    let mut store = match made {
        Ok(store) => store,
        Err(refusal) => return refused(rt, line, refusal.number()),
    };
    println!(rt; "{line}: made {}", store.boards())?;
    for line in rest
        .iter()
        .take_while(|line| made_by(line.as_str()).is_none())
    {
        match answer_to(&mut store, read(line.as_str())?) {
            Ok(answer) => println!(rt; "{line}: {answer}")?,
            Err(refusal) => refused(rt, line.as_str(), refusal.number())?,
        }
    }
    Ok(())
}

// Makes the store that a line asks for, in memory that other records lie in, and runs the commands that follow. The arms
// stay two: a store borrows its memory, and a parameter that makes one could not name a type with that lifetime.
fn make(rt: &HostRuntime, kind: Kind, line: &str, rest: &[String]) -> anyhow::Result<()> {
    let (_, places, boards) = words(line)?;
    match kind {
        Kind::Slots => {
            let any = Slot {
                taken: true,
                state: picked(77),
            };
            let mut memory = vec![in rt.alloc(); any; places]?;
            cases(rt, line, SlotStore::new(&mut memory, boards as usize), rest)
        }
        Kind::Journal => {
            let any = Entry {
                board: 0,
                kind: EntryKind::Put,
                state: picked(77),
                back: 0,
            };
            let mut memory = vec![in rt.alloc(); any; places]?;
            cases(rt, line, Journal::new(&mut memory, boards as usize), rest)
        }
    }
}

fn run(rt: &HostRuntime) -> anyhow::Result<()> {
    let mut lines = Vec::new(rt.alloc());
    for line in rt.lines(rt.alloc()) {
        lines.push(line?)?;
    }
    for (i, line) in lines.iter().enumerate() {
        if let Some(kind) = made_by(line.as_str()) {
            make(rt, kind, line.as_str(), &lines[i + 1..])?;
        }
    }
    Ok(())
}

fn main(rt: HostRuntime) -> anyhow::Result<()> {
    run(&rt)
}
