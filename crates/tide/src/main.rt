// One tide of a quay display: its listing is built, assembled and run, and rehearsed with requests at every place.
#![tactic(auto)]

mod constituents;
mod drafts;
mod faults;
mod images;
mod placings;
mod printing;
mod programs;
mod workshop;

use placings::{Tide, place_one, place_two};
use printing::{print_faults, print_phases, print_sizes, print_tide};
use programs::listing_with;
use workshop::Workshop;

// Rehearses the tide with one request at every place, and with two among the first places.
fn rehearse(rt: &HostRuntime, workshop: &mut Workshop, tide: &Tide) -> anyhow::Result<()> {
    println!(rt; "One request, before each own step in turn")?;
    let (one, waits) = place_one(rt.alloc(), workshop, tide)?;
    println!(rt; "{one}")?;
    println!(rt; "Two requests, before each two of the first hundred own steps")?;
    let two = place_two(workshop, tide, waits.as_slice())?;
    println!(rt; "{two}")?;
    let steps = one.steps.saturating_add(two.steps);
    println!(rt; "steps made in all rehearsals, the twins' among them: {steps}\n")?;
    Ok(())
}

fn run(rt: &HostRuntime) -> anyhow::Result<()> {
    let heap = rt.alloc();
    let mut workshop = Workshop::new(heap, listing_with(heap, None)?)?;
    print_sizes(rt, &mut workshop)?;
    let mapped = workshop.run_mapped()?;
    let tide = workshop.run_flat()?;
    print_tide(rt, &tide, &mapped)?;
    print_phases(rt, &mut workshop)?;
    rehearse(rt, &mut workshop, &tide)?;
    print_faults(rt, &mut workshop, &tide)
}

fn main(rt: HostRuntime) -> anyhow::Result<()> {
    run(&rt)
}
