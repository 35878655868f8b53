//! Reads a map from standard input, stands a rover at its start, looks to the four sides, drives once round the four
//! subcells of the start's megacell, and prints each look, each step with its place and reading, and the counts; or
//! the refusal's number and place.
#![tactic(auto)]

use board::heading::Heading;
use chart::slot::Slot;
use chart::slots::{self, chart_of};
use drawn_floor::floor::{DrawnFloor, DrawnRover};
use fault::Fault;
use map_format::drawing::Drawing;
use rover::meaning::Rover;
use std::io::Read;
use std::{fmt, io};

/// The longest map, and one byte more, by which a longer one is told.
// `survey_map` has the number too: a program says what it reads, and one constant for two programs is no plainer.
const MOST: u64 = 1057;

/// Looks to the four sides of the megacell stood in.
fn look_round<R: Rover>(rt: &HostRuntime, rover: &mut R) -> io::Result<()> {
    for heading in [Heading::North, Heading::East, Heading::South, Heading::West] {
        let side = if rover.look(heading) {
            "open"
        } else {
            "closed"
        };
        println!(rt; "look {heading} {side}")?;
    }
    Ok(())
}

/// Steps to the next subcell of the megacell, counter-clockwise, and puts its reading into the chart.
fn step_on<R: Rover>(
    rt: &HostRuntime,
    rover: &mut R,
    chart: &mut [Slot<R::Reading>],
) -> anyhow::Result<()>
where
    R::Reading: fmt::Display,
{
    let heading = rover.place().exit().left();
    if let Err(fault) = rover.step(heading) {
        return refuse(rt, &fault);
    }
    let place = rover.place();
    slots::put(chart, place, rover.read())?;
    let row = place.row();
    let column = place.column();
    match slots::at(chart, place)? {
        Some(reading) => println!(rt; "step {heading} to {row} {column} reads {reading}")?,
        None => println!(rt; "step {heading} to {row} {column}")?,
    }
    Ok(())
}

/// The refusal's number and place.
fn refuse<F: Fault>(rt: &HostRuntime, fault: &F) -> anyhow::Result<()> {
    let number = fault.number();
    let place = fault.place();
    println!(rt; "REFUSED {number} {place}")?;
    Ok(())
}

/// The whole round of one rover.
fn round<R: Rover + Drop>(rt: &HostRuntime, mut rover: R) -> anyhow::Result<()>
where
    R::Reading: fmt::Display,
{
    let mut chart = chart_of(rt.alloc())?;
    look_round(rt, &mut rover)?;
    for _ in 0..4 {
        step_on(rt, &mut rover, chart.as_mut_slice())?;
    }
    let moves = rover.moves();
    let looks = rover.looks();
    println!(rt; "{moves} moves, {looks} looks")?;
    Ok(())
}

fn main(rt: HostRuntime) -> anyhow::Result<()> {
    let mut map = Vec::new(rt.alloc());
    rt.stdin().take(MOST).read_to_end(&mut map)?;
    match Drawing::read(map.as_slice()) {
        Ok(drawing) => round(&rt, DrawnRover::new(DrawnFloor { drawing })),
        Err(fault) => refuse(&rt, &fault),
    }
}
