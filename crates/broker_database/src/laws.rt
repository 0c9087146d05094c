//! The laws of the machine as this broker runs it. The program calls none of these.
ghost use Rattle.broker_core.specs.Headline.{DeploysExactly, ReleasesExactly, PermitsVerified};
ghost use Rattle.broker_core.specs.Laws.{OpeningIsSound, ContentsStay, GateLocality, GateAnswersOnce, HasOneStep, Retry};
ghost use Rattle.broker_core.specs.declared.command.Command.{Command};
ghost use Rattle.command_facts.specs.Readings.{is_refusal};
ghost use Rattle.sqlite.specs.Held.{state};
ghost use Rattle.command_facts.specs.Primitives.{broker_primitives};
ghost use Rattle.broker_database.specs.Laws.{Format1GateStays, StoredRunsDeployExactly, StoredRunsReleaseExactly, StoredTeamsDiffer, StoredStepExists, RowsNameVersions};
ghost use Rattle.broker_database.specs.Life.{KeepsLatest, LivesRun, OpenedFilesHold, OpeningSpares, PeriodsLead};
ghost use Rattle.broker_database.specs.Life.{Programs, ProgramsLead, two};

use broker_core::laws::{self, Machine};
use sqlite::Alter;
use sqlite_disk::Disk;
use std::marker::PhantomData;

/// The machine with SHA-256 and the readers of this broker.
struct BrokerMachine;

impl Machine for BrokerMachine {
    ghost primitives = { broker_primitives };
}

/// See [`laws::headline_of_step`].
pub fn headline_of_broker()
    ensures deployments { DeploysExactly broker_primitives }
    ensures releases { ReleasesExactly broker_primitives }
    ensures gate { PermitsVerified }
{
    laws::headline_of_step::<BrokerMachine>()
}

/// The sentence for which this broker exists, over a list of requests. In each run of the machine from
/// a state that a database holds, each deployment is recorded exactly when every contract between the
/// version and the partners there has a successful latest verification, no required provider is absent
/// and the caller's team is granted, all in the state in which it comes; otherwise its answer names
/// every failing or missing pair, or the denying rule, and nothing changes. So is each release. `serve`
/// promises such a run of the requests of a stream. No two teams have tokens with one digest in a state
/// that a database holds, and so in none of these (`callers`).
pub fn headline_of_stored_run()
    ensures deployments { StoredRunsDeployExactly }
    ensures releases { StoredRunsReleaseExactly }
    ensures callers { StoredTeamsDiffer }
{}

/// See [`laws::contents_stay`]: here the normal text of a pact reads as this pact.
pub fn contents_stay()
    ensures opening { OpeningIsSound broker_primitives }
    ensures steps { ContentsStay broker_primitives }
{}

/// See [`laws::gate_locality`].
pub fn gate_locality()
    ensures every_state { GateLocality broker_primitives }
    ensures one_answer { GateAnswersOnce broker_primitives }
{
    laws::gate_locality::<BrokerMachine>()
}

/// See [`laws::retry`]: in every state.
pub fn retry()
    ensures { Retry broker_primitives (λ s. Unit {0}) }
{
    laws::retry::<BrokerMachine>()
}

/// What the files of a broker keep. The latest results there are right: for each content and version of its provider the
/// one with the greatest number (`latest`). A connection that is opened on files which keep a state holds it (`opened`).
/// What [`lives`] asks of an opening that failed is what `open_files` of `sqlite` promises, and two things that it doesn't
/// say (`unopened`).
pub fn kept_files<D: Disk>()
    ensures latest { KeepsLatest }
    ensures opened { OpenedFilesHold D.Disk }
    ensures unopened { OpeningSpares D.Disk }
{}

/// Programs that use a broker's two files, one after another, each over a disk of its own.
pub trait OverDisks {
    ghost programs: { Programs };
}

/// The files of a broker from the first byte to the last: stopped at any call on the disk, in a command or between two,
/// any number of times, and opened again, they keep what was done. They begin with nothing, or with what a broker left in
/// this format or in format 1. Any number of programs use them, each over a disk of its own, which returns what was
/// written and to which nobody else writes: one is killed, or its machine, and the next one finds what that left. A program
/// opens them, makes a broker, migrates one, or serves, and then closes them, gives them up, or is stopped; or it can't
/// open them, or is stopped as it does. What a crash leaves then keeps what these lead to: no tables if no broker was
/// made; the state of format 1 until it was migrated; and the state to which the machine leads by the commands of all
/// sessions since. A command that was answered by a step took it, with that answer; one that was answered by no step took
/// none; and one that was cut, or answered `Store`, took its step or none (what that makes of the state,
/// [`sessions_done`] says). A call that was stopped or refused left what was there, or what the call was to make, whole. If
/// a program was stopped as it opened files that held nothing, they hold nothing, or half of a first page, and the next
/// one makes its broker in them.
#[tactic(auto, using(crate::proofs::LifeLemmas::programs_lead))]
pub fn lives<P: OverDisks>()
    ensures programs { ProgramsLead P.programs }
{}

/// Two programs, over a disk each.
struct TwoDisks<D: Disk, E: Disk> {
    of: PhantomData<(D, E)>,
}

impl<D: Disk, E: Disk> OverDisks for TwoDisks<D, E> {
    ghost programs = { two D.Disk E.Disk };
}

/// [`lives`] of two programs, in any order: say one that was killed, and the next one.
pub fn restarts<D: Disk, E: Disk>()
    ensures { ProgramsLead (two D.Disk E.Disk) }
{
    lives::<TwoDisks<D, E>>()
}

/// One period of [`lives`], from a connection that was opened to its end, over any store.
pub fn period_leads<S: Alter>()
    ensures { PeriodsLead (state S.Store) }
{}

/// What is done of the sessions whose state files keep. It is a state after these sessions, from the state that was kept
/// at first, or from that of a broker which was made. So of each session exactly a prefix is done, which holds every
/// acknowledged command. And if each command that was cut comes first in the next session and is answered by a step
/// there, the state is that of a run over all commands, each once.
#[tactic(auto, using(crate::proofs::LifeLemmas::lives_run))]
pub fn sessions_done()
    ensures { LivesRun }
{}

/// Of each state that a database of format 1 holds, the gate says today what it said in format 1: what each version is
/// permitted in each environment, its faults, and what can-i-deploy shows. A migration keeps that state.
#[tactic(auto, using(crate::proofs::MigrationLemmas::judges_format_1))]
pub fn format_1_gate()
    ensures { Format1GateStays }
{}

/// Every command has a step in each state that a database holds, if its file is read and its replies
/// are compared.
pub fn step_exists()
    ensures { StoredStepExists }
{}

/// A command has one step, unless one of the two answers that a pattern was refused.
pub fn step_once()
    ensures { (command : Command) → HasOneStep broker_primitives is_refusal command }
{}

/// In a database that declares what a broker does and obeys it, as each that is opened, no row of what is deployed or
/// released, and none of contracts, branches and results, names a version that isn't there, whoever wrote it.
#[tactic(auto, using(crate::proofs::NamedRows::rows_name_versions))]
pub fn rows_name_versions()
    ensures { RowsNameVersions }
{}
