// Tells what boards' records are after their stories. Standard input has the stories, each ended by
// an empty line: `worked w`, `sent q l w` and `heard p l w` are events (board, label, word), and
// `harness pick lifted sum` or `feed pick tension length` is the record to start from, in place of
// the first one. Sum, tension and length are bits, in hexadecimal. For each story the records of a
// harness board and of a feed drive are written.
#![tactic(auto)]

ghost use Rattle.std.specs.Prelude.{◌≤◌};

use anyhow::anyhow;
use records::event::Event;
use records::feed::Feed;
use records::harness::Harness;
use records::part::{Part, replay_from};
use std::num::ParseIntError;
use std::str::Split;

#[derive(Drop)]
struct Story {
    harness: Harness,
    feed: Feed,
    events: Vec<Event>,
}

impl Story {
    fn new(rt: &HostRuntime) -> Story {
        Story {
            harness: Harness::first(),
            feed: Feed::first(),
            events: Vec::new(rt.alloc()),
        }
    }

    // Takes a line of the story.
    fn add(&mut self, line: &str) -> anyhow::Result<()> {
        let mut words = line.split(' ');
        match words.next().unwrap_or("") {
            "worked" => self.events.push(Event::Worked {
                word: decimal(&mut words)?,
            })?,
            "sent" => self.events.push(Event::Sent {
                to: decimal(&mut words)?,
                label: decimal(&mut words)?,
                word: decimal(&mut words)?,
            })?,
            "heard" => self.events.push(Event::Heard {
                from: decimal(&mut words)?,
                label: decimal(&mut words)?,
                word: decimal(&mut words)?,
            })?,
            "harness" => {
                self.harness = Harness {
                    pick: decimal(&mut words)?,
                    lifted: decimal(&mut words)?,
                    sum: bits(&mut words)?,
                }
            }
            "feed" => {
                self.feed = Feed {
                    pick: decimal(&mut words)?,
                    tension: bits(&mut words)?,
                    length: bits(&mut words)?,
                }
            }
            _ => return Err(anyhow!("no such line")),
        }
        Ok(())
    }

    fn tell(&self, rt: &HostRuntime) -> anyhow::Result<()> {
        let Harness { pick, lifted, sum } = replay_from(self.harness, &self.events);
        println!(rt; "harness {pick} {lifted} {sum:08x}")?;
        let Feed {
            pick,
            tension,
            length,
        } = replay_from(self.feed, &self.events);
        println!(rt; "feed {pick} {tension:08x} {length:08x}")?;
        Ok(())
    }
}

// The next word as a number; a line that ends before it has an empty word there.
fn number(words: &mut Split<'_, char>, radix: u32) -> Result<u32, ParseIntError>
    requires { (2 ≤ radix) × (radix ≤ 36) }
{
    u32::from_str_radix(words.next().unwrap_or(""), radix)
}

fn decimal(words: &mut Split<'_, char>) -> Result<u32, ParseIntError> {
    number(words, 10)
}

fn bits(words: &mut Split<'_, char>) -> Result<u32, ParseIntError> {
    number(words, 16)
}

fn run(rt: &HostRuntime) -> anyhow::Result<()> {
    let mut story = Story::new(rt);
    for line in rt.lines(rt.alloc()) {
        let line = line?;
        if line.is_empty() {
            story.tell(rt)?;
            story = Story::new(rt);
        } else {
            story.add(line.as_str())?;
        }
    }
    Ok(())
}

fn main(rt: HostRuntime) -> anyhow::Result<()> {
    run(&rt)
}
