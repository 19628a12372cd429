// Answers every run file of a table on standard input, one file to a line. In a line `|` stands
// for byte 0A, `~` for byte 0D and `^` for a tab; pieces are divided by `;`, and `N*piece` stands
// for N such pieces. A line `@name` stands for the file of that name.
#![tactic(auto)]

use runner::answer;
use std::fs;

fn byte_of(letter: u8) -> u8 {
    match letter {
        b'|' => b'\n',
        b'~' => b'\r',
        b'^' => b'\t',
        _ => letter,
    }
}

fn add_piece(file: &mut Vec<u8>, piece: &str) -> anyhow::Result<()> {
    let (times, text) = match piece.split_once('*') {
        Some((count, text)) => (count.parse::<u32>()?, text),
        None => (1, piece),
    };
    for _ in 0..times {
        // (Letter by letter: to extend the file by a chain anew for each time takes twice as long.)
        for letter in text.bytes() {
            file.push(byte_of(letter))?;
        }
    }
    Ok(())
}

fn file_of(rt: &HostRuntime, line: &str) -> anyhow::Result<Vec<u8>> {
    if let Some(name) = line.strip_prefix('@') {
        return Ok(fs::read(rt, name)?);
    }
    let mut file = Vec::new(rt.alloc());
    for piece in line.split(';') {
        add_piece(&mut file, piece)?;
    }
    Ok(file)
}

fn answer_line(rt: &HostRuntime, line: &str) -> anyhow::Result<()> {
    let file = file_of(rt, line)?;
    let text = answer(rt.alloc(), &file)?;
    rt.print(text)?;
    Ok(())
}

fn run(rt: &HostRuntime) -> anyhow::Result<()> {
    for line in rt.lines(rt.alloc()) {
        answer_line(rt, line?.as_str())?;
    }
    Ok(())
}

fn main(rt: HostRuntime) -> anyhow::Result<()> {
    run(&rt)
}
