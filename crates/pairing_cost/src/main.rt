// What pairing costs: flat floors of three sizes, with their triangles in the order of drawing and shuffled.
// With an argument, as `quick`, it leaves out the largest floor and the times, so that its output is always the same.
#![tactic(auto)]

mod floor;
mod table;

use floor::Floor;
use std::env;
use table::{Line, Order};

fn main(rt: HostRuntime) -> anyhow::Result<()> {
    let quick = env::args(&rt)?.len() > 1;
    let all: &[Floor] = &[Floor::SMALL, Floor::MIDDLE, Floor::LARGE];
    let floors = if quick { &all[..2] } else { all };
    println!(rt; "triangles order    shared edges border edges")?;
    for &floor in floors {
        for order in [Order::Drawn, Order::Shuffled] {
            let line = Line::of(&rt, floor, order)?;
            if quick {
                println!(rt; "{line}")?;
            } else {
                println!(rt; "{line} {:>9} ms", line.time.as_millis())?;
            }
        }
    }
    Ok(())
}
