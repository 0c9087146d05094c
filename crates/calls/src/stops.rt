//! Scenarios over files that stop at a call, at each one after another, and are opened again.
use crate::disks::{Act, Fuses, Held, Left, NEVER, session};
use crate::scenarios::{
    FIRST_DEPLOYMENT, First, GATED_DEPLOYMENTS, MIGRATION, REPLIES, RESULT_OF_RUN, Scenario, Step,
};
use crate::scripts::{BEGIN, Course, Script};
use crate::streams::OFFICE;
use broker_names::name::Token;
use broker_service::OpenFault;
use std::alloc::Global;
use std::process::Abort;
use std::test::Fail;

/// The stop of one of the files, and of which of them all is lost that wasn't synced.
#[derive(Clone, Copy, Debug)]
struct Stop {
    in_log: bool,
    calls: u64,
    loses_log: bool,
    loses_db: bool,
}

impl Stop {
    fn fuses(&self) -> Fuses {
        if self.in_log {
            Fuses {
                log: self.calls,
                ..NEVER
            }
        } else {
            Fuses {
                db: self.calls,
                ..NEVER
            }
        }
    }

    /// Whether something is lost of each file of which it is to be: else another stop leaves the same.
    fn loses(&self, left: &Left) -> bool {
        (!self.loses_log || left.log.has_unsynced()) && (!self.loses_db || left.db.has_unsynced())
    }

    /// What it leaves.
    fn leaves(&self, alloc: Global, left: &Left) -> Result<Held, Fail> {
        left.held(alloc, self.loses_log, self.loses_db)
    }
}

/// What a test needs: a scenario, what each session does, and what is there before.
#[derive(Clone, Copy)]
struct Plan<'a> {
    alloc: Global,
    script: &'a Script,
    act: Act<'a>,
    base: &'a Held,
}

/// How a session ended.
#[derive(Clone, Copy, PartialEq, Eq)]
enum Ended {
    /// All is done, and no call was refused.
    Whole,
    /// It was stopped, or all calls are used up.
    Stopped,
    Wrong,
}

/// A session over files that hold this, and what is there then.
fn plays(
    plan: &Plan<'_>,
    held: &Held,
    fuses: Fuses,
    course: &mut Course,
) -> Result<(Ended, Left), Fail> {
    let (returned, left) = session(plan.alloc, held, fuses, plan.act, course)?;
    course.maybe_next = course.done < plan.script.len();
    let ended = match returned {
        Ok(true) if course.maybe_next && !left.is_stopped => Ended::Wrong,
        Ok(true) | Err(OpenFault::Store) if left.is_stopped => Ended::Stopped,
        Ok(true) => Ended::Whole,
        _ => Ended::Wrong,
    };
    Ok((ended, left))
}

/// Two more sessions that stop so, and one that does what is left to do.
fn goes_on(plan: &Plan<'_>, held: Held, stop: Stop, course: Course) -> Result<bool, Fail> {
    let mut course = course;
    let mut held = held;
    for fuses in [stop.fuses(), stop.fuses(), NEVER] {
        let (ended, left) = plays(plan, &held, fuses, &mut course)?;
        if ended != Ended::Stopped {
            return Ok(ended == Ended::Whole);
        }
        held = stop.leaves(plan.alloc, &left)?;
    }
    Ok(false)
}

/// Of which of the two files all is lost that wasn't synced.
const LOSSES: [(bool, bool); 4] = [(false, false), (true, false), (false, true), (true, true)];

/// After a session that stopped so the scenario ends well, for each loss of what wasn't synced.
fn survives(
    rt: &impl Abort,
    plan: &Plan<'_>,
    stop: Stop,
    left: &Left,
    course: Course,
) -> Result<(), Fail> {
    for (loses_log, loses_db) in LOSSES {
        let stop = Stop {
            loses_log,
            loses_db,
            ..stop
        };
        if stop.loses(left) {
            let held = stop.leaves(plan.alloc, left)?;
            assert!(rt; goes_on(plan, held, stop, course)?, "{stop:?}");
        }
    }
    Ok(())
}

/// How often each step was the one that was cut.
type Cuts = Vec<u64>;

/// Stops one file at each of its calls, one after another, until a session meets no stop.
fn stops(rt: &impl Abort, plan: &Plan<'_>, in_log: bool, cuts: &mut Cuts) -> Result<(), Fail> {
    for calls in 0..NEVER.log {
        let stop = Stop {
            in_log,
            calls,
            loses_log: false,
            loses_db: false,
        };
        let mut course = BEGIN;
        let (ended, left) = plays(plan, plan.base, stop.fuses(), &mut course)?;
        assert!(rt; ended != Ended::Wrong, "{stop:?}");
        if ended == Ended::Whole {
            return Ok(());
        }
        if let Some(count) = cuts.get_mut(course.done) {
            *count = count.saturating_add(1);
        }
        survives(rt, plan, stop, &left, course)?;
    }
    Err(Fail::from("no end"))
}

/// How often a step that changes something is cut at least: it writes, syncs, writes what makes it count, and syncs.
const FEWEST_CUTS: u64 = 4;

fn are_cut(script: &Script, cuts: &Cuts) -> bool {
    for place in 0..script.len() {
        let count = cuts.get(place).copied().unwrap_or(0);
        if count < FEWEST_CUTS && script.changes(place) {
            return false;
        }
    }
    true
}

/// Stops either file at each of its calls, so that each step that changes something is cut at each of its calls.
fn stops_all(rt: &impl Abort, plan: &Plan<'_>) -> Result<(), Fail> {
    let mut cuts = Vec::new(plan.alloc);
    cuts.resize(plan.script.len(), 0)?;
    stops(rt, plan, true, &mut cuts)?;
    stops(rt, plan, false, &mut cuts)?;
    assert!(rt; are_cut(plan.script, &cuts), "{cuts:?}");
    Ok(())
}

/// What this leaves on files that hold nothing.
fn left_by(alloc: Global, act: Act<'_>) -> Result<Held, Fail> {
    let mut course = BEGIN;
    let (returned, left) = session(alloc, &Held::new(alloc), NEVER, act, &mut course)?;
    if returned != Ok(true) {
        return Err(Fail::from("what comes first"));
    }
    left.held(alloc, false, false)
}

/// What a broker leaves that has done these steps.
fn left_by_steps(alloc: Global, office: &Token, steps: &'static [Step]) -> Result<Held, Fail> {
    let scenario = Scenario {
        first: First::Nothing,
        steps,
        questions: &[],
    };
    let script = Script::new(alloc, &scenario)?;
    left_by(alloc, Act::Play(&script, office))
}

fn base_of(alloc: Global, office: &Token, first: First) -> Result<Held, Fail> {
    match first {
        First::Nothing => Ok(Held::new(alloc)),
        First::Steps(steps) => left_by_steps(alloc, office, steps),
        First::Tables(statements) => left_by(alloc, Act::Run(statements)),
    }
}

fn reports(rt: &impl Abort, alloc: Global, scenario: &Scenario) -> Result<(), Fail> {
    let office = Token::new(alloc, OFFICE)?;
    let script = Script::new(alloc, scenario)?;
    let base = base_of(alloc, &office, scenario.first)?;
    let act = match scenario.first {
        First::Tables(_) => Act::Renew(&script),
        _ => Act::Play(&script, &office),
    };
    let plan = Plan {
        alloc,
        script: &script,
        act,
        base: &base,
    };
    stops_all(rt, &plan)
}

#[test]
fn first_deployment(rt: HostRuntime) -> Result<(), Fail> {
    reports(&rt, rt.alloc(), &FIRST_DEPLOYMENT)
}

#[test]
fn gated_deployments(rt: HostRuntime) -> Result<(), Fail> {
    reports(&rt, rt.alloc(), &GATED_DEPLOYMENTS)
}

#[test]
fn replies_and_runs(rt: HostRuntime) -> Result<(), Fail> {
    reports(&rt, rt.alloc(), &REPLIES)?;
    reports(&rt, rt.alloc(), &RESULT_OF_RUN)
}

#[test]
fn migration(rt: HostRuntime) -> Result<(), Fail> {
    reports(&rt, rt.alloc(), &MIGRATION)
}
