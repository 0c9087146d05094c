//! What a broker's file keeps over a command. The program calls none of these.
ghost use Rattle.sqlite_disk.specs.Modelled.{calls_of, start_of};
ghost use Rattle.broker_program.specs.Stops.{StopsOnlyAtChanges};
ghost use Rattle.broker_program.specs.Life.{AskingLeads, AuditingLeads, FindingNoneLeads, MakingLeads, MigratingLeads, ServingLeads};
ghost use Rattle.broker_program.specs.Life.{ShutLeads, UnclosedLeads};
ghost use Rattle.broker_program.specs.Tested.{ServesHonestly};

use sqlite::Start;
use sqlite_disk::{Calls, Disk, Modelled};

/// Each of the commands over a file that are done is a period of the life of that file (`lives` of
/// `broker_database`), and `serve` is one for each time that it opened it: if the files held no tables, a broker's state
/// of format 1 or one of today's, then what a crash leaves of what the command left keeps what the periods lead to.
/// `init` makes a broker (`making`), `migrate` makes today's database with the same state (`migrating`), `can-i-deploy`
/// serves one command (`asking`), and `serve` those of all its peers, of each opening those that its broker ran, until
/// the file is closed, a sync of it fails or it was given up and isn't opened again (`serving`).
pub fn life_over_commands<D: Disk>()
    ensures making { MakingLeads D.Disk }
    ensures migrating { MigratingLeads D.Disk }
    ensures asking { AskingLeads D.Disk }
    ensures serving { ServingLeads D.Disk }
{}

/// `audit` is a period without commands of the life of its file: what a crash leaves of the file that was given up keeps
/// what the file held.
pub fn life_over_audit<D: Disk>()
    ensures { AuditingLeads D.Disk }
{}

/// What is left of a file by a `serve` that fails once it served keeps what its periods lead to, too: if no broker is
/// found in the file that was opened again (`unfound`), if it isn't opened again (`shut`), and if it can't be
/// closed (`unclosed`). So the next program that opens it goes on from there. Of the last two the kit's clauses leave
/// out a little, which is a premise: of files whose opening is refused, that they are unharmed (`unopened` of
/// `kept_files`); of a store that broke as its log was copied or that couldn't be closed, that its trees are numbered.
pub fn life_over_cuts<D: Disk>()
    ensures unfound { FindingNoneLeads D.Disk }
    ensures shut { ShutLeads D.Disk }
    ensures unclosed { UnclosedLeads D.Disk }
{}

/// Over a file that holds a state which can be read back, on a disk that works, `serve` answers `store` to no command
/// that changes nothing: each broker over the file that is stopped is so at a command that was to be done, whichever
/// opening it is. That a broker stops only at such an answer, and that the states that a run reaches can be read back,
/// are promises of `Broker::apply`. Of `replay` it is part of what that command promises.
pub fn stops_only_at_changes<D: Disk>()
    ensures { StopsOnlyAtChanges D.Disk }
{}

/// If the disk was clean as `serve` opened its file, the last time, it is to the end, or two texts share a digest: each
/// later read is tested against a digest of what was written there, under a key that the system drew. So of one opening
/// the premise of the clauses on `serve`, that the disk is clean to the end, is one on its opening and on digests.
/// `Modelled` is a file whose calls are recorded, as that of each path is.
pub fn service_is_honest<C: Calls + Drop, S: Start>()
    ensures { ServesHonestly ⟦<Modelled<C, S> as Disk>⟧ (start_of S.Start) (λ f. C.Calls.history (calls_of f)) }
{}
