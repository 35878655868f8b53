//! Writes the text of every refusal, of every layer and of the readings of a drawn floor, a line each: what a person
//! is told. Nothing is promised of these texts; the lines are compared with the file `stdout`.
#![tactic(auto)]

use board::heading::Heading;
use chart::faults::ChartFault;
use drawn_floor::light::Light;
use fault::Fault;
use frame::faults::FrameFault;
use log_record::faults::LogFault;
use map_format::faults::MapFault;
use rover::faults::RoverFault;
use sheet::faults::SheetFault;
use std::{fmt, io};
use survey::faults::SurveyFault;
use sweep::faults::SweepFault;

/// One line: number, layer, place and text of a refusal.
fn tell<F: Fault + fmt::Display>(rt: &HostRuntime, fault: &F) -> io::Result<()> {
    let number = fault.number();
    let layer = fault.layer();
    let place = fault.place();
    println!(rt; "{number} {layer} {place}: {fault}")
}

/// The lines of several refusals of one kind.
fn tell_all<F: Fault + fmt::Display>(rt: &HostRuntime, faults: &[F]) -> io::Result<()> {
    for fault in faults {
        tell(rt, fault)?;
    }
    Ok(())
}

fn tell_maps(rt: &HostRuntime) -> io::Result<()> {
    let faults = [
        MapFault::Length { bytes: 1057 },
        MapFault::ForbiddenByte { offset: 3 },
        MapFault::BadRow { offset: 8 },
        MapFault::ExtraRow { offset: 64 },
        MapFault::NoStart { bytes: 2 },
        MapFault::SecondStart { offset: 5 },
    ];
    tell_all(rt, &faults)
}

fn tell_logs(rt: &HostRuntime) -> io::Result<()> {
    let faults = [
        LogFault::WrongLength,
        LogFault::BadHeader,
        LogFault::IndexBeyond { holder: 2 },
        LogFault::BadRecord { record: 3 },
        LogFault::SecondRecord { record: 4 },
        LogFault::StartUntold,
    ];
    tell_all(rt, &faults)
}

fn tell_sweeps(rt: &HostRuntime) -> io::Result<()> {
    let short = ChartFault::Short { slots: 4095 };
    let closed = RoverFault::Closed {
        slot: 65,
        heading: Heading::West,
    };
    tell(rt, &short)?;
    tell(rt, &closed)?;
    tell(rt, &SweepFault::Chart(short))?;
    tell(rt, &SweepFault::Home)?;
    tell(rt, &SweepFault::Rover(closed))?;
    tell(rt, &SheetFault::NoLetter { offset: 7 })?;
    tell(rt, &SheetFault::Short { needed: 35 })
}

fn tell_surveys(rt: &HostRuntime) -> io::Result<()> {
    let unknown = FrameFault::Unknown { number: 8 };
    let closed = RoverFault::Closed {
        slot: 4095,
        heading: Heading::South,
    };
    let faults = [
        SurveyFault::Frame(unknown),
        SurveyFault::Map(MapFault::Length { bytes: 0 }),
        SurveyFault::Log(LogFault::StartUntold),
        SurveyFault::Chart(ChartFault::Short { slots: 0 }),
        SurveyFault::Rover(closed),
        SurveyFault::Sweep(SweepFault::Home),
        SurveyFault::Sheet(SheetFault::Short { needed: 26 }),
    ];
    tell(rt, &unknown)?;
    tell_all(rt, &faults)
}

fn tell_readings(rt: &HostRuntime) -> io::Result<()> {
    let unlit = Light::Unlit;
    let lit = Light::Lux(112.5);
    println!(rt; "{unlit}, {lit}")
}

fn main(rt: HostRuntime) -> io::Result<()> {
    tell_maps(&rt)?;
    tell_logs(&rt)?;
    tell_sweeps(&rt)?;
    tell_surveys(&rt)?;
    tell_readings(&rt)
}
