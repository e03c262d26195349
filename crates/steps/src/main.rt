// Shows the pipeline at work, event by event: a program with two tables in a row, packets that follow one another, and updates while they are under way.
#![tactic(auto)]

#[cfg(test)]
mod cases;
mod sample;

use anyhow::anyhow;
use pipeline::answer::OldPacketUnderWay;
use play::event::{Event, Outcome};
use play::playing::play;

fn main(rt: HostRuntime) -> anyhow::Result<()> {
    run(&rt)
}

fn run(rt: &HostRuntime) -> anyhow::Result<()> {
    let heap = rt.alloc();
    println!(rt; "Two tables in a row: apply t; apply u;")?;
    println!(rt;
        "t sets field a and u sets field b, both to the same number, which each update changes."
    )?;
    println!(rt; "A packet leaves after twelve steps, with a and b by the same version.")?;
    let Ok(outcomes) = play(
        heap,
        sample::declarations(heap)?,
        &sample::two_tables(),
        18,
        sample::events(heap)?,
    ) else {
        return Err(anyhow!("the program was refused"));
    };
    let events = sample::events(heap)?;
    let mut steps = 0usize;
    for (event, outcome) in events.iter().zip(outcomes.iter()) {
        tell(rt, steps, event)?;
        if !matches!(event, Event::Update(_)) {
            steps = steps.wrapping_add(1);
        }
        show(rt, outcome)?;
    }
    Ok(())
}

// What happens: a step by its number, or an update between two steps.
fn tell(rt: &HostRuntime, step: usize, event: &Event) -> anyhow::Result<()> {
    match event {
        Event::Idle => print!(rt; "step {step:2}: nothing comes")?,
        Event::Comes(fields) => {
            let f = fields.of[1];
            print!(rt; "step {step:2}: packet {f} comes")?
        }
        Event::Update(_) => print!(rt; "         update")?,
    }
    Ok(())
}

// What comes of it.

fn show(rt: &HostRuntime, outcome: &Outcome) -> anyhow::Result<()> {
    match outcome {
        Outcome::Sent(None) => println!(rt; "")?,
        Outcome::Sent(Some(packet)) => {
            let f = packet.fields.of[1];
            let a = packet.fields.of[2];
            let b = packet.fields.of[3];
            println!(rt; "; packet {f} leaves with a = {a}, b = {b}")?
        }
        Outcome::Answered(Ok(())) => println!(rt; ": taken")?,
        Outcome::Answered(Err(OldPacketUnderWay)) => println!(rt;
            ": refused, an older packet is under way"
        )?,
    }
    Ok(())
}
