// What is told of the tide, its rehearsals and its faulty variants.
use crate::constituents::{COUNT, constituents};
use crate::faults::{MEANT, READ, Unkept, Unprefixed};
use crate::images::Curve;
use crate::placings::{Findings, Tide};
use crate::programs::{Fault, HEIGHTS, SERVICE, expected_height, listing_with};
use crate::workshop::Workshop;
use anyhow::{Context, bail};
use assembler::{LARGEST_IMAGE, assemble};
use machine::StepRefusal;
use std::{array, fmt};
use text::{Answers, Refused};

// The height that one mark of the picture stands for, in millimetres.
const MARK: u16 = 200;

fn yes_or_no(holds: bool) -> &'static str {
    if holds { "yes" } else { "no" }
}

// The listing and what the assembler answers, with the premises of the promises.
pub(crate) fn print_sizes(rt: &HostRuntime, workshop: &mut Workshop) -> anyhow::Result<()> {
    let records = workshop.records();
    let Answers { text, image, run } = workshop.answers();
    let shifts = workshop.extended_shifts();
    let agree = yes_or_no(workshop.memories_agree());
    println!(rt;
        "A quay display: {COUNT} tidal constituents, {HEIGHTS} heights half an hour apart\n"
    )?;
    println!(rt;
        "listing: {records} records\nimage: {image} bytes, the first {text} of them text"
    )?;
    println!(rt; "longest interlocked run: {run} words")?;
    println!(rt;
        "service range: {:04X} up to {:04X}",
        SERVICE.low, SERVICE.high
    )?;
    println!(rt; "words of the program text that read as srxi or slxi: {shifts}")?;
    println!(rt; "flat and mapped memory mean the same: {agree}\n")?;
    Ok(())
}

// The tide curve, a row for each height with a bar of marks.
fn print_rows(rt: &HostRuntime, curve: &Curve) -> anyhow::Result<()> {
    for (number, height) in curve.iter().enumerate() {
        let hours = number / 2;
        let minutes = number % 2 * 30;
        let marks = usize::from(height / MARK);
        println!(rt; "{hours:02}:{minutes:02} {height:5} mm {:#<marks$}", "")?;
    }
    Ok(())
}

// The heights as they are summed in 32 bits, without the core.
fn expected_curve() -> Curve {
    array::from_fn(|i| (expected_height(i as u32 + 1).cast_unsigned() % 0x1_0000) as u16)
}

// One tide undisturbed, in both memories.
pub(crate) fn print_tide(rt: &HostRuntime, tide: &Tide, mapped: &Tide) -> anyhow::Result<()> {
    let Tide {
        own,
        service,
        curve,
    } = tide;
    let both = yes_or_no(*curve == mapped.curve);
    let right = yes_or_no(*curve == expected_curve());
    println!(rt; "One tide undisturbed: {own} own steps; a service takes {service} steps")?;
    print_rows(rt, curve)?;
    println!(rt; "the same heights in flat and in mapped memory: {both}")?;
    println!(rt; "the same heights as summed in 32 bits: {right}\n")?;
    Ok(())
}

// The phases after the tide, five to a line: COUNT is a multiple of five, so the last line is full.
pub(crate) fn print_phases(rt: &HostRuntime, workshop: &mut Workshop) -> anyhow::Result<()> {
    let constituents = constituents();
    let phases = workshop.phases();
    let expected = constituents.map(|constituent| constituent.phase(HEIGHTS as u32));
    let right = COUNT.saturating_sub(differing(&phases, &expected));
    println!(rt; "Phases after the tide, their two halves joined")?;
    for (number, (constituent, phase)) in constituents.iter().zip(&phases).enumerate() {
        let end = if number % 5 == 4 { "\n" } else { "  " };
        print!(rt; "{:<4} {phase:08X}{end}", constituent.name)?;
    }
    println!(rt; "the same as {HEIGHTS} sums in 32 bits: {right} of {COUNT}\n")?;
    Ok(())
}

// What a number of placings came to, a line for each finding.
impl fmt::Display for Findings {
    fn fmt<W: fmt::Write>(&self, f: &mut fmt::Formatter<W>) -> fmt::Result {
        writeln!(f, "placings: {}", self.placings)?;
        writeln!(
            f,
            "requests: {} taken, {} refused while one was pending",
            self.takings, self.refused
        )?;
        writeln!(
            f,
            "longest wait of a placing: least {}, greatest {}, bound {}",
            self.least, self.greatest, self.limit
        )?;
        writeln!(
            f,
            "every placing left the same heights, and all else as its undisturbed twin: {}",
            yes_or_no(self.marked == 0)
        )
    }
}

// In how many places two lists differ.
fn differing<T: PartialEq>(first: &[T], second: &[T]) -> usize {
    first
        .iter()
        .zip(second)
        .filter(|(value, other)| value != other)
        .count()
}

fn print_unprefixed(rt: &HostRuntime, workshop: &mut Workshop, tide: &Tide) -> anyhow::Result<()> {
    let Unprefixed {
        address,
        loaded,
        meant,
        read,
        curve,
    } = workshop.run_unprefixed(tide.own)?;
    let constituents = constituents();
    let name = constituents[MEANT].name;
    let other = constituents[READ].name;
    let wrong = differing(&curve, &tide.curve);
    println!(rt; "An image by hand, with a nop for the prefix of the load at {address:04X}")?;
    println!(rt;
        "high half of the phase of {name}: {meant:04X}; of {other}: {read:04X}; loaded for {name}: {loaded:04X}"
    )?;
    println!(rt; "heights that differ: {wrong} of {HEIGHTS}\n")?;
    Ok(())
}

fn print_unkept(rt: &HostRuntime) -> anyhow::Result<()> {
    let heap = rt.alloc();
    let listing = listing_with(heap, Some(Fault::KeepsRegister))?;
    let Unkept { refused, owing } = Workshop::new(heap, listing)?.run_unkept()?;
    let StepRefusal {
        refusal,
        address,
        ..
    } = refused.context("the service was let close")?;
    println!(rt; "A service that does not give back r1")?;
    println!(rt; "its closing step: refused {refusal} at {address:04X} service, owing {owing}\n")?;
    Ok(())
}

fn print_parted(rt: &HostRuntime) -> anyhow::Result<()> {
    let heap = rt.alloc();
    let listing = listing_with(heap, Some(Fault::PartsCarry))?;
    let mut image = vec![in heap; 0; LARGEST_IMAGE]?;
    let Err(Refused { refusal, index }) = assemble(listing.as_slice(), image.as_mut_slice()) else {
        bail!("a sum and its carry were let be parted");
    };
    println!(rt; "A listing with a load between a sum and its carry")?;
    println!(rt; "its assembly: refused {refusal} record {index}")?;
    Ok(())
}

// What the bench makes of faulty variants.
pub(crate) fn print_faults(
    rt: &HostRuntime,
    workshop: &mut Workshop,
    tide: &Tide,
) -> anyhow::Result<()> {
    print_unprefixed(rt, workshop, tide)?;
    print_unkept(rt)?;
    print_parted(rt)
}
