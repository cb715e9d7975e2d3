//! Sizes of decision diagrams that operations give, and, where the word `times` is among the arguments, how long they take.
//! The first argument is a number, by which the work grows.
#![tactic(auto)]

ghost use Rattle.std.specs.Prelude.{◌<◌, ◌≤◌};

use plai_base::Mask;
use plai_bdd::Bdd;
use std::alloc::{AllocError, Global};
use std::env::Env;
use std::time::{Clock, Instant};
use std::{env, io};

/// What is printed of each piece of work.
#[derive(Drop)]
struct Report<'a, R> {
    rt: &'a R,
    start: Instant,
    timed: bool,
}

impl<'a, R: Clock + Print> Report<'a, R> {
    fn start(rt: &'a R, timed: bool) -> io::Result<Report<'a, R>> {
        let start = Instant::now(rt)?;
        Ok(Report { rt, start, timed })
    }

    /// Prints what was made and how many nodes it has, with the microseconds since the last note.
    fn note(&mut self, what: &str, nodes: usize) -> io::Result<()> {
        let micros = self.start.elapsed(self.rt)?.as_micros();
        if self.timed {
            println!(self.rt; "{what}: {nodes} nodes, {micros} microseconds")?;
        } else {
            println!(self.rt; "{what}: {nodes} nodes")?;
        }
        self.start = Instant::now(self.rt)?;
        Ok(())
    }
}

/// So many slots from the first one on, and from 0 again behind slot 63.
fn slots(first: u32, count: u32) -> Mask {
    let mut all = Mask::empty();
    for k in 0..count {
        all = all.insert(first.wrapping_add(k) % 64);
    }
    all
}

/// Every second slot.
fn even_slots() -> Mask {
    let mut all = Mask::empty();
    for k in 0..32 {
        all = all.insert(2 * k);
    }
    all
}

/// The conjunction of so many equivalences, each of a slot with the conjunction of the thirty behind it.
fn equivalences(alloc: Global, count: u32) -> Result<Bdd, AllocError> {
    let mut all = Bdd::constant(alloc, true)?;
    for k in 0..count {
        let one = Bdd::iff_all(alloc, k % 64, slots((k % 64) + 1, 30))?;
        all = all.and(alloc, &one)?;
    }
    Ok(all)
}

/// The conjunction of so many equivalences, each of a slot with the one 32 places behind it.
fn pairs(alloc: Global, count: u32) -> Result<Bdd, AllocError> {
    let mut all = Bdd::constant(alloc, true)?;
    for k in 0..count {
        let one = Bdd::iff_all(alloc, k % 32, slots(k % 32 + 32, 1))?;
        all = all.and(alloc, &one)?;
    }
    Ok(all)
}

/// The function that answers as one of two, by the slot.
fn choice(alloc: Global, slot: u32, low: &Bdd, high: &Bdd) -> Result<Bdd, AllocError>
    requires { slot < 64 }
{
    let yes = Bdd::variable(alloc, slot)?;
    let other = (slot + 1) % 64;
    let no = Bdd::iff_all(alloc, slot, Mask::of(other))?.restrict(alloc, other, false)?;
    yes.and(alloc, high)?.or(alloc, &no.and(alloc, low)?)
}

/// For each rest by the modulus, the function that the weights of the true slots add up to it. The weights are 1 to 5, in turn. Such
/// functions have about as many nodes as there are rests on each slot, and paths lead to each node from everywhere.
fn counters(alloc: Global, modulus: usize, slots: u32) -> Result<Vec<Bdd>, AllocError>
    requires { slots ≤ 64 }
{
    let mut rests = Vec::new(alloc);
    for rest in 0..modulus {
        rests.push(Bdd::constant(alloc, rest == 0)?)?;
    }
    for slot in (0..slots).rev() {
        rests = counted(alloc, slot, (slot % 5) as usize + 1, &rests)?;
    }
    Ok(rests)
}

/// The functions with one slot more, which adds its weight where it is true.
fn counted(alloc: Global, slot: u32, weight: usize, rests: &[Bdd]) -> Result<Vec<Bdd>, AllocError>
    requires { slot < 64 }
{
    let mut more = Vec::new(alloc);
    for (rest, low) in rests.iter().enumerate() {
        let high = &rests[rest.wrapping_add(weight) % rests.len()];
        more.push(choice(alloc, slot, low, high)?)?;
    }
    Ok(more)
}

fn word(answer: bool) -> &'static str {
    if answer { "yes" } else { "no" }
}

/// Equivalences over thirty slots, their conjunction, and its projections.
fn time_equivalences<R: Clock + Print + AllocGlobal>(
    rt: &R,
    report: &mut Report<R>,
    size: u32,
) -> io::Result<()> {
    let alloc = rt.alloc();
    let one = Bdd::iff_all(alloc, 0, slots(1, 30))?;
    report.note("a slot and thirty others", one.node_count())?;
    let rest = one.exists(alloc, slots(1, 30))?;
    report.note("projected to the slot", rest.node_count())?;
    let all = equivalences(alloc, size)?;
    report.note("equivalences over thirty slots", all.node_count())?;
    for (name, gone) in [
        ("projected to slots 32 to 63", slots(0, 32)),
        ("projected to slots 0 to 31", slots(32, 32)),
        ("projected to odd slots", even_slots()),
    ] {
        let rest = all.exists(alloc, gone)?;
        report.note(name, rest.node_count())?;
    }
    println!(rt; "implies itself: {}", word(all.implies(&all)))?;
    println!(rt; "forces slot 0 or 1: {}", word(all.forces(0, 1)))?;
    report.note("two walks", all.node_count())
}

/// Equivalences of slots far from one another, which make wide diagrams, and their projections.
fn time_pairs<R: Clock + Print + AllocGlobal>(
    rt: &R,
    report: &mut Report<R>,
    size: u32,
) -> io::Result<()> {
    let alloc = rt.alloc();
    let all = pairs(alloc, size)?;
    report.note("pairs of slots, 32 places apart", all.node_count())?;
    for (name, gone) in [
        ("projected to slots 32 to 63", slots(0, 32)),
        ("projected to slots 0 to 31", slots(32, 32)),
        ("projected to odd slots", even_slots()),
        ("without slots 0 to 4", slots(0, 5)),
    ] {
        let rest = all.exists(alloc, gone)?;
        report.note(name, rest.node_count())?;
        println!(rt; "implied: {}", word(all.implies(&rest)))?;
        report.note("a walk", all.node_count())?;
    }
    Ok(())
}

/// Functions that have many paths and no narrow place.
fn time_counters<R: Clock + Print + AllocGlobal>(
    rt: &R,
    report: &mut Report<R>,
    modulus: usize,
    size: u32,
) -> io::Result<()>
    requires { size ≤ 64 }
{
    let alloc = rt.alloc();
    let rests = counters(alloc, modulus, size)?;
    let mut all = Bdd::constant(alloc, false)?;
    for one in &rests[..rests.len().min(2)] {
        all = all.or(alloc, one)?;
    }
    report.note("counts by a modulus", all.node_count())?;
    for one in &rests[..rests.len().min(2)] {
        println!(rt; "implied: {}", word(one.implies(&all)))?;
        println!(rt; "implies: {}", word(all.implies(one)))?;
        println!(rt; "forces slot 0 or 1: {}", word(one.forces(0, 1)))?;
        report.note("three walks", one.node_count())?;
    }
    let rest = all.exists(alloc, slots(0, 2))?;
    report.note("without slots 0 and 1", rest.node_count())?;
    Ok(())
}

/// The size and whether times are wanted.
fn settings<R: Env + AllocGlobal>(rt: &R) -> io::Result<(u32, bool)> {
    let mut size = 40;
    let mut timed = false;
    for word in env::args(rt)?.skip(1) {
        if word.as_str() == "times" {
            timed = true;
        } else if let Ok(number) = word.parse::<u32>() {
            size = number;
        }
    }
    Ok((size, timed))
}

fn main(rt: HostRuntime) -> io::Result<()> {
    let (size, timed) = settings(&rt)?;
    let mut report = Report::start(&rt, timed)?;
    time_equivalences(&rt, &mut report, size)?;
    time_pairs(&rt, &mut report, (size / 16).min(12))?;
    time_counters(&rt, &mut report, 13, (size / 3).min(64))
}
