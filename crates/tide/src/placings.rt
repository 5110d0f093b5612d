// Requests placed among the own steps of one tide, each placing rehearsed.
ghost use Rattle.std.specs.Prelude.{◌≤◌};

use crate::images::{Curve, Image};
use crate::workshop::Workshop;
use histories::Action;
use isa::Refusal;
use machine::{Core, Side, Step};
use memory::Memory;
use rehearsal::{Program, Report, same_answer};
use std::alloc::Global;

// The own steps of one tide, up to and with the first turn of its last loop; the steps of one service; the heights.
#[derive(Clone, Copy)]
pub(crate) struct Tide {
    pub(crate) own: u16,
    pub(crate) service: u16,
    pub(crate) curve: Curve,
}

// What a number of placings came to. No wait is above the limit, by the promise of each rehearsal.
#[derive(Clone, Copy)]
pub(crate) struct Findings {
    pub(crate) placings: u32,
    pub(crate) takings: u128,
    pub(crate) refused: u128,
    pub(crate) least: u16,
    pub(crate) greatest: u16,
    pub(crate) limit: usize,
    pub(crate) marked: u32,
    pub(crate) steps: u128,
    ghost bounded: { greatest ≤ limit },
}

// Two requests are tried before each two of so many own steps.
const PAIRED_PLACES: u16 = 100;

// Steps up to and with the first turn of the tide's last loop, and counts the steps; core and memory stand apart, as in the core's own calls.
fn count_own<M: Memory>(core: &mut Core, memory: &mut M) -> anyhow::Result<u16> {
    for own in 1..=u16::MAX {
        let before = core.counter();
        core.step(memory).map_err(Refusal::from)?;
        if core.counter() == before {
            return Ok(own);
        }
    }
    Ok(u16::MAX)
}

// Runs the tide once, and a request after it to see how long a service takes.
pub(crate) fn measure<M: Memory>(memory: &mut M, image: Image<'_>) -> anyhow::Result<Tide> {
    let mut core = image.load(memory)?;
    let own = count_own(&mut core, memory)?;
    let _ = core.request();
    let service = core.run(memory, 100).tally.service;
    Ok(Tide {
        own,
        service,
        curve: image.curve(memory),
    })
}

impl Tide {
    // The budget of a run that makes so many own steps and one whole service.
    fn with_service(&self, own: u16) -> u16 {
        own.saturating_add(1).saturating_add(self.service)
    }
}

// Whether the one step more was an own step that the twin's answered alike.
fn goes_on_alike(report: &Report) -> bool {
    report.next == Ok(Step::Made(Side::Own)) && same_answer(report.next, report.twin_next)
}

impl Findings {
    fn new() -> Findings {
        Findings {
            placings: 0,
            takings: 0,
            refused: 0,
            least: u16::MAX,
            greatest: 0,
            limit: 0,
            marked: 0,
            steps: 0,
        }
    }

    // Notes the rehearsal of so many requests: what it counted, and whether it left the program as the undisturbed tide does.
    fn note(&mut self, workshop: &mut Workshop, tide: &Tide, requests: u128, report: &Report)
        requires { report.now.totals.wait ≤ report.now.limit }
    {
        let totals = report.totals;
        let counted = totals.own == u128::from(tide.own)
            && totals.takings == u128::from(workshop.ticks());
        let alike = report.kept && report.program == Program::Same && goes_on_alike(report);
        let unmarked = counted && alike && workshop.curve() == tide.curve;
        let refused = requests.saturating_sub(totals.takings);
        *self = Findings {
            placings: self.placings.saturating_add(1),
            takings: self.takings.saturating_add(totals.takings),
            refused: self.refused.saturating_add(refused),
            least: self.least.min(totals.wait),
            greatest: self.greatest.max(totals.wait),
            limit: self.limit.max(report.limit),
            marked: self.marked.saturating_add(u32::from(!unmarked)),
            steps: self
                .steps
                .saturating_add(totals.own.saturating_mul(2))
                .saturating_add(totals.service)
                .saturating_add(totals.takings)
                .saturating_add(2),
        };
    }
}

// One request before each own step in turn, and the wait at each place.
// The workshop is changed and the tide is only compared with, so they stay two parameters.
pub(crate) fn place_one(
    heap: Global,
    workshop: &mut Workshop,
    tide: &Tide,
) -> anyhow::Result<(Findings, Vec<u16>)> {
    let mut findings = Findings::new();
    let mut waits = Vec::new(heap);
    for place in 0..tide.own {
        let rest = tide.own.saturating_sub(place);
        let actions = [
            Action::Run(place),
            Action::Request,
            Action::Run(tide.with_service(rest)),
        ];
        let report = workshop.rehearse(&actions)?;
        findings.note(workshop, tide, 1, &report);
        waits.push(report.totals.wait)?;
    }
    Ok((findings, waits))
}

// Two requests at each two of the first places. Where the first still waits at the second place, the second is refused.
pub(crate) fn place_two(
    workshop: &mut Workshop,
    tide: &Tide,
    waits: &[u16],
) -> anyhow::Result<Findings> {
    let mut findings = Findings::new();
    for second in 0..PAIRED_PLACES {
        for (first, wait) in (0..second).zip(waits) {
            let between = second.saturating_sub(first);
            let budget = if *wait > between {
                between
            } else {
                tide.with_service(between)
            };
            let rest = tide.own.saturating_sub(second);
            let actions = [
                Action::Run(first),
                Action::Request,
                Action::Run(budget),
                Action::Request,
                Action::Run(tide.with_service(rest)),
            ];
            let report = workshop.rehearse(&actions)?;
            findings.note(workshop, tide, 2, &report);
        }
    }
    Ok(findings)
}
