//! Tries a plan on every pile, with a power stop at every put, and prints what each left.
#![tactic(auto)]

mod pile;
mod report;

use anyhow::{Context, anyhow};
use pile::{Pile, Setup, try_pile};
use plan::reader::Plan;
use plan::step::Step;
use std::alloc::Global;
use std::io::{BufRead, BufReader, Stdin};

/// The power stops so far, and how many of them left something that the plan does not allow.
#[derive(Clone, Copy, Debug, Default, PartialEq, Eq)]
struct Tally {
    stops: usize,
    wrong: usize,
}

/// One line of the input without its newline, or none at the end of the input.
fn next_line(input: &mut BufReader<Stdin>, heap: Global) -> anyhow::Result<Option<Vec<u8>>> {
    let mut line = Vec::new(heap);
    if input.read_until(b'\n', &mut line)? == 0 {
        return Ok(None);
    }
    if line.last() == Some(&b'\n') {
        let _ = line.pop();
    }
    Ok(Some(line))
}

/// Reads the plan from standard input, and refuses it at its first bad line.
fn read_plan(rt: &HostRuntime) -> anyhow::Result<Plan> {
    let mut plan = Plan::new(rt.alloc());
    let mut input = BufReader::new(rt.alloc(), rt.stdin())?;
    for number in 1..usize::MAX {
        let Some(line) = next_line(&mut input, rt.alloc())? else {
            break;
        };
        plan.read(line.as_slice())
            .map_err(|fault| anyhow!("line {number}: {fault}"))?;
    }
    Ok(plan)
}

/// Tries one pile with every number of puts that its fuse can let through before the plan runs to its end.
fn try_all(
    rt: &HostRuntime,
    pile: Pile,
    size: usize,
    steps: &[Step],
    tally: &mut Tally,
) -> anyhow::Result<()> {
    for passes in 0..=steps.len() {
        let mut line = String::new(rt.alloc());
        let setup = Setup { pile, passes };
        let report = try_pile(rt.alloc(), setup, size, steps, &mut line)?;
        println!(rt; "{line}")?;
        tally.stops = tally.stops.saturating_add(1);
        if report.wrong > 0 {
            tally.wrong = tally.wrong.saturating_add(1);
        }
        if report.is_finished() {
            break;
        }
    }
    Ok(())
}

fn serve(rt: &HostRuntime) -> anyhow::Result<()> {
    let plan = read_plan(rt)?;
    let size = plan
        .size()
        .context("the plan is empty: its first line has to be SIZE")?;
    let mut tally = Tally::default();
    for pile in Pile::ALL {
        try_all(rt, pile, size, plan.steps(), &mut tally)?;
    }
    println!(rt; "stops,{},not allowed,{}", tally.stops, tally.wrong)?;
    Ok(())
}

fn main(rt: HostRuntime) -> anyhow::Result<()> {
    serve(&rt)
}
