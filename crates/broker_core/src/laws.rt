//! Laws of the definitions. The program calls none of these.
ghost use Rattle.broker_core.specs.Contents.{ReadsAgain};
ghost use Rattle.broker_core.specs.Machine.{Primitives};
ghost use Rattle.broker_core.specs.Headline.{DeploysExactly, ReleasesExactly, PermitsVerified};
ghost use Rattle.broker_core.specs.Laws.{OnlyDoneChanges, OpeningIsSound, ContentsStay, GateLocality, GateAnswersOnce, Retry, RunsOnce, StepExists, StepOnce};
ghost use Rattle.broker_core.specs.RunHeadline.{RunsDeployExactly, RunsReleaseExactly, TeamsStayApart, TeamsBeginApart};
ghost use Rattle.broker_core.specs.Sessions.{SessionsRun};
ghost use Rattle.broker_core.specs.SoundNames.{GivesDigests, NamesBegin, NamesStay, NamesStayInRuns};

/// What the written machine takes from other crates.
pub trait Machine {
    ghost primitives: { Primitives };
}

/// A deployment into a gated environment is recorded exactly when every contract between the version and the partners
/// that are there has a successful latest verification, no required provider is absent and the caller's team is
/// granted; otherwise the answer names every failing or missing pair, or the denying rule, and nothing changes. A
/// release is judged in the same way.
pub fn headline_of_step<M: Machine>()
    ensures deployments { DeploysExactly M.primitives }
    ensures releases { ReleasesExactly M.primitives }
    ensures gate { PermitsVerified }
{}

/// The same of a whole list of requests. In each run of the machine, from a state in which no two
/// teams have tokens with one digest, each deployment is recorded exactly when it may be in the state
/// in which it comes; otherwise its answer names every failing or missing pair, or the denying rule,
/// and nothing changes. So is each release. A new broker's state is such a state, and so is each that
/// a run reaches.
pub fn headline_of_run<M: Machine>()
    ensures deployments { RunsDeployExactly M.primitives }
    ensures releases { RunsReleaseExactly M.primitives }
    ensures stays { TeamsStayApart M.primitives }
    ensures begins { TeamsBeginApart }
{}

/// Only a step that is answered `Done` changes anything.
pub fn only_done_changes<M: Machine>()
    ensures { OnlyDoneChanges M.primitives }
{}

/// Each stored text is one pact's normal text, is stored once, and belongs to its contracts and
/// results: of a new broker, and after every step from such a state, if the normal text of a pact
/// reads as this pact.
pub fn contents_stay<M: Machine>()
    ensures opening { OpeningIsSound M.primitives }
    ensures steps { ReadsAgain M.primitives → ContentsStay M.primitives }
{}

/// Each name that a state has is a name, and each digest of a token is 64 hexadecimal digits: of a new
/// broker, after every step from such a state by a command whose names are names, and so after every
/// run. The names of a command are, since its types are ([`Command::has_names`]).
///
/// [`Command::has_names`]: crate::command::Command::has_names
pub fn names_stay<M: Machine>()
    ensures begin { NamesBegin }
    ensures steps { GivesDigests M.primitives → NamesStay M.primitives }
    ensures runs { GivesDigests M.primitives → NamesStayInRuns M.primitives }
{}

/// The answer to a deployment depends on its caller, on what the version and its environment have,
/// and on the contracts and latest results of the version and of what is there, and on nothing else.
pub fn gate_locality<M: Machine>()
    ensures every_state { GateLocality M.primitives }
    ensures one_answer { GateAnswersOnce M.primitives }
{}

/// A command that comes twice leaves what it leaves once: one of the two steps counts, with its answer, and the other
/// one changes nothing. Excepted is a result without a run, which is counted each time.
pub fn retry<M: Machine>()
    ensures { Retry M.primitives (λ s. Unit {0}) }
{}

/// The states after a list of sessions are exactly those of runs over what is done of them: of each session the
/// requests that were answered by a step, and the one that was cut, or not that one. So of each session exactly a
/// prefix is done, which holds every request that was answered.
pub fn sessions_run<M: Machine>()
    ensures { SessionsRun M.primitives }
{}

/// If each request that was cut comes again, the state is that of a run over all requests, each once.
pub fn runs_once<M: Machine>()
    ensures { RunsOnce M.primitives }
{}

/// Every command has a step, in each state whose tables are finite and whose contents are sound, if
/// its file is read and its replies are compared.
pub fn step_exists<M: Machine>()
    ensures { StepExists M.primitives }
{}

/// A command that is read in one way has one step, unless one of the two answers that a pattern was
/// refused.
pub fn step_once<M: Machine>()
    ensures { StepOnce M.primitives }
{}
