//! What holds of each user's resources in every world that a run reaches.

ghost use Rattle.std.specs.Prelude.{◌≡◌, ℕ, ◌+◌, ◌≤◌, ◌<◌, ◌==◌, ◌||◌, Bool, false, true, List, [], ◌∷◌, ◌++◌, All, Some, count_by, if◌then◌else◌, length, max};
ghost use Rattle.std.specs.Cmp.Lexicographic.{slice_cmp};
ghost use Rattle.std.specs.List.Sorted.{IsStrictlySortedBy};
ghost use Rattle.std.specs.Ordering.{nat_cmp};
ghost use Rattle.qx_base.specs.declared.errno.Errno.{Errno};
ghost use Rattle.qx_types.specs.Configuration.{Configuration, limits_of, name_bytes};
ghost use Rattle.qx_types.specs.declared.limits.TheConstants.Limits.{PROCESSES};
ghost use Rattle.qx_types.specs.declared.names.Manager.{Manager};
ghost use Rattle.qx_types.specs.declared.names.Thread.{Thread};
ghost use Rattle.qx_types.specs.declared.outcome.Outcome.TheVariants.{Failed, Sent};
ghost use Rattle.qx_types.specs.declared.request.Request.{Request};
ghost use Rattle.qx_types.specs.declared.step.Step.{Step};
ghost use Rattle.qx_types.specs.declared.step.Step.TheVariants.{Call, TakeReply};
ghost use Rattle.qx_machine.specs.declared.rows.Client.{Client};
ghost use Rattle.qx_machine.specs.declared.rows.Conditions.{Conditions};
ghost use Rattle.qx_machine.specs.Events.{Events, event_count, triggered};
ghost use Rattle.qx_machine.specs.Inodes.{blocks_of_client, is_clients};
ghost use Rattle.qx_machine.specs.Listings.{listed_by, listed_next};
ghost use Rattle.qx_machine.specs.Laws.{is_refusal};
ghost use Rattle.qx_machine.specs.Machine.{World, line_of, own_held, step};
ghost use Rattle.qx_machine.specs.Names.{listed, listing, names_in};
ghost use Rattle.qx_machine.specs.Mounting.{new_resources};
ghost use Rattle.qx_machine.specs.Parts.{Part};
ghost use Rattle.qx_machine.specs.Processes.{Process, has_ended, has_server};
ghost use Rattle.qx_isolation.specs.Lines.{line_at};
ghost use Rattle.qx_isolation.specs.Rows.{row_at};
ghost use Rattle.qx_machine.specs.Runs.{run};
ghost use Rattle.qx_machine.specs.Settling.{is_held};
ghost use Rattle.qx_machine.specs.Waiting.{is_call};
ghost use Rattle.qx_invariants.specs.Changes.{Become};
ghost use Rattle.qx_invariants.specs.Errors.{IsAmong, IsMessageOf, MayFail, last_sent, refusals};
ghost use Rattle.qx_invariants.specs.Holds.{HasClients, HasConnections, HasContents, HasFewConnections, HasFewProcesses, HasFewServers, HasKinds, HasLimits, HasMade, HasMounts, HasNames, HasOpenWaiters, HasOwnWaiters, HasRoom, HasSettledPipes, HasTree, HasUses, HoldsInRuns, HoldsOfParts, IsOwnedBy, WaitsOnce, due_pulses, greatest_prio};
ghost use Rattle.qx_invariants.specs.Waits.{count_waiting};

/// A user's resources become what they are by a few kinds of change alone, one after another, each where it may happen.
#[tactic(auto, using(crate::proofs::Reached::run_becomes))]
pub fn only_changes_happen()
    ensures { (config : Configuration) (steps : List Step) (user : ℕ) (part : Part) → row_at (run config steps).world.parts user ≡ Some part → Become (new_resources (limits_of config user) user (name_bytes config user)) part.resources }
{}

/// Each user's limits are those of the configuration, whatever steps are taken.
#[tactic(auto, using(crate::proofs::Reached::run_limits))]
pub fn limits_are_as_at_boot()
    ensures { (config : Configuration) (steps : List Step) (user : ℕ) (part : Part) → row_at (run config steps).world.parts user ≡ Some part → part.resources.limits ≡ limits_of config user }
{}

/// Inodes and open control blocks are numbered from 1 within the user's limits, each inode has a place for what is in it, and
/// there are no more mounts than the user's limit, the top among them.
pub fn numbers_are_within_limits()
    ensures { HoldsInRuns HasRoom }
{}

/// An open control block that is there has one use at least, and 66 at most, the greatest number of a connection (C Library
/// Reference: `dup`).
#[tactic(auto, using(crate::proofs::Reached::run_uses))]
pub fn blocks_are_used()
    ensures { HoldsInRuns HasUses }
{}

/// Each open control block that is there is among those that were made, once, and no other; and so it is among its client's,
/// and among no other's.
pub fn blocks_are_made_once()
    ensures made { HoldsInRuns HasMade }
    ensures of_clients { HoldsInRuns (λ r. (client : Client) (number : ℕ) → count_by (λ other. other == number) (blocks_of_client r.inodes client) ≡ (if is_clients client (row_at r.inodes.blocks number) then 1 else 0)) }
{}

/// The client of each open control block is a server connection that is there: its process is, and has that server
/// connection at that manager.
#[tactic(auto, using(crate::proofs::Reached::run_clients))]
pub fn blocks_have_clients()
    ensures { HoldsOfParts HasClients }
{}

/// What a connection has open is there, and its client is the connection's process by the server connection that is in use at the
/// connection's manager; and until its process ends, as many connections have an open control block as it has uses.
#[tactic(auto, using(crate::proofs::Reached::run_connections))]
pub fn connections_have_what_is_open()
    ensures { HoldsOfParts HasConnections }
{}

/// A process has no more connections than the user's limit, numbered from 3; so until it ends, what it has open has no more
/// uses (C Library Reference: `dup`).
#[tactic(auto, using(crate::proofs::Reached::run_few_connections))]
pub fn connections_are_within_the_limit()
    ensures { HoldsOfParts HasFewConnections }
{}

/// A user has no more processes than the user's limit, those that have ended and are not freed among them, numbered from 1.
#[tactic(auto, using(crate::proofs::Reached::run_few_processes))]
pub fn processes_are_within_the_limit()
    ensures { HoldsOfParts HasFewProcesses }
{}

/// A user has no more server connections at a manager than the user's limit, those whose disconnect pulse is not performed
/// among them.
#[tactic(auto, using(crate::proofs::Reached::run_few_servers))]
pub fn server_connections_are_within_the_limit()
    ensures { HoldsOfParts HasFewServers }
{}

/// In no line has a message of a user, or a pulse that asks to unblock, a higher priority than the user's ceiling, nor has a
/// disconnect pulse one above that of the user's disconnect pulses; so none has one above the greater of the two.
pub fn items_are_within_ceilings()
    ensures kinds { (config : Configuration) (steps : List Step) (manager : Manager) → All (λ queued. queued.prio.0 ≤ greatest_prio (limits_of config queued.user.0) queued.item) (line_of (run config steps).world manager) }
    ensures greater { (config : Configuration) (steps : List Step) (manager : Manager) → All (λ queued. queued.prio.0 ≤ max (limits_of config queued.user.0).ceiling (limits_of config queued.user.0).disconnect) (line_of (run config steps).world manager) }
{}

/// What a path in a mount leads to, and what a client has open at a manager, is a directory or of the manager's own kind.
#[tactic(auto, using(crate::proofs::Reached::run_kinds))]
pub fn managers_have_their_kinds()
    ensures { HoldsInRuns HasKinds }
{}

/// Each inode among a user's resources is owned by that user.
#[tactic(auto, using(crate::proofs::Reached::run_owned))]
pub fn users_own_their_inodes()
    ensures { (config : Configuration) (steps : List Step) (user : ℕ) (part : Part) → row_at (run config steps).world.parts user ≡ Some part → IsOwnedBy user part.resources }
{}

/// A file has as many bytes as the size of its inode says, and so has a pipe, and a device, which is there by its own rules;
/// nothing else has any.
#[tactic(auto, using(crate::proofs::Reached::run_contents))]
pub fn sizes_tell_contents()
    ensures { HoldsInRuns HasContents }
{}

/// No file has more bytes than the user's limit of a file, nor have all files of a user more than that of bytes, and no more
/// than 4,096 stand in a pipe, or in a device.
pub fn bytes_are_within_limits()
    ensures { HoldsInRuns HasLimits }
{}

/// A user's armed events and untaken pulses, those of all processes together, are no more than the user's limit, and there is
/// a queue for the pulses of each process, under its number.
pub fn events_are_within_the_limit()
    ensures limit { HoldsInRuns (λ r. event_count r.events ≤ r.limits.events) }
    ensures queues { HoldsInRuns (λ r. length r.events.pulses ≡ PROCESSES + 1) }
{}

/// A due event gives one pulse: behind the untaken pulses that a process had come those of its armed events that are due, in
/// order of arming, and nothing else; a process that has ended gets none.
pub fn an_event_gives_one_pulse()
    ensures living { (lives : ℕ → Bool) (before after : ℕ → Conditions) (events : Events) (process : ℕ) → process < length events.pulses → lives process ≡ true → line_at (triggered lives before after events).pulses process ≡ line_at events.pulses process ++ due_pulses before after process events.armed }
    ensures ended { (lives : ℕ → Bool) (before after : ℕ → Conditions) (events : Events) (process : ℕ) → process < length events.pulses → lives process ≡ false → line_at (triggered lives before after events).pulses process ≡ line_at events.pulses process }
{}

/// Nobody waits in a pipe or a device who could be served: to settle it changes nothing and answers nobody.
#[tactic(auto, using(crate::proofs::Reached::run_settled))]
pub fn nobody_waits_in_vain()
    ensures { HoldsInRuns HasSettledPipes }
{}

/// An inode is there only while a name leads to it or it is open; its links are 1 exactly while a name leads to it, and else
/// 0; and each name leads to an inode that is there, no two names to one.
pub fn links_tell_names()
    ensures { HoldsInRuns HasNames }
{}

/// Each name is a component of 1 to 64 bytes with no zero byte and no `/`, and neither `.` nor `..`, in a directory to which a
/// path leads.
pub fn names_form_a_tree()
    ensures { HoldsInRuns HasTree }
{}

/// The path of each mount's root leads to a directory, however many steps were taken.
#[tactic(auto, using(crate::proofs::Reached::run_mounts))]
pub fn mounts_are_there()
    ensures { HoldsInRuns HasMounts }
{}

/// Whoever reads any directory listing by listing, each behind the last name given before, the first behind the empty name,
/// has all its names once a listing gives nothing, each once and in the order of their bytes (C Library Reference:
/// `readdir`). After as many listings as there are names, the next gives nothing. The bytes of a listing tell its names.
pub fn directories_are_listed_whole()
    ensures rising { HoldsInRuns (λ r. (directory : ℕ) → IsStrictlySortedBy (slice_cmp nat_cmp) (names_in r.names directory)) }
    ensures whole { HoldsInRuns (λ r. (directory listings : ℕ) → listed_next r.names directory (listed_by listings r.names directory) ≡ [] → listed_by listings r.names directory ≡ names_in r.names directory) }
    ensures ends { HoldsInRuns (λ r. (directory listings : ℕ) → length (names_in r.names directory) ≤ listings → listed_next r.names directory (listed_by listings r.names directory) ≡ []) }
    ensures told { HoldsInRuns (λ r. (directory other : ℕ) (after before : List ℕ) → listing (listed r.names directory after) ≡ listing (listed r.names other before) → listed r.names directory after ≡ listed r.names other before) }
{}

/// Each call that waits in a pipe or a device is over an open control block of that; so nobody waits in what is not open.
#[tactic(auto, using(crate::proofs::Reached::run_waiters))]
pub fn who_waits_has_it_open()
    ensures { HoldsInRuns HasOpenWaiters }
{}

/// Each call that waits in a pipe or a device is over an open control block of a client of its own process.
#[tactic(auto, using(crate::proofs::Reached::run_own_waiters))]
pub fn who_waits_is_the_client()
    ensures { HoldsInRuns HasOwnWaiters }
{}

/// A process that has ended is there only while it has a server connection or a worker holds an item of it: once it has no
/// server connection and no worker holds an item of it, it is freed, and gone with its number.
#[tactic(auto, using(crate::proofs::Reached::run_ended))]
pub fn ended_processes_are_freed()
    ensures { (config : Configuration) (steps : List Step) (user : ℕ) (part : Part) (number : ℕ) (process : Process) → row_at (run config steps).world.parts user ≡ Some part → row_at part.processes number ≡ Some process → has_ended process ≡ true → (has_server process || is_held (own_held user (run config steps).world.hands) number) ≡ true }
{}

/// Of each thread that waits one call waits in the user's pipes and devices, and of any other thread none, but one whose
/// process has ended: so a call waits at most once, and no thread waits whose call is nowhere.
pub fn threads_wait_once()
    ensures threads { HoldsOfParts WaitsOnce }
    ensures calls { HoldsInRuns (λ r. (process thread number : ℕ) → count_waiting (is_call process thread number) r.pipes ≤ 1) }
{}

/// A step that is refused, in any world, is refused as its list says.
#[tactic(auto, using(crate::proofs::Judged::refusals_named))]
pub fn refusals_are_named()
    ensures { (w : World) (e : Step) → is_refusal (step w e).outcome ≡ true → IsAmong (step w e).outcome (refusals e) }
{}

/// An error that a thread takes as its answer is one with which that what it sent last may be answered, at once or after it
/// waited.
#[tactic(auto, using(crate::proofs::LastSent::errors_named))]
pub fn errors_are_named()
    ensures { (config : Configuration) (steps : List Step) (thread : Thread) (error : Errno) → (step (run config steps).world (TakeReply thread)).outcome ≡ Failed error → MayFail (last_sent thread config steps) error }
{}

/// Once a call is sent, its message is what its thread sent last.
#[tactic(auto, using(crate::proofs::LastSent::calls_sent))]
pub fn calls_are_sent()
    ensures { (config : Configuration) (steps : List Step) (thread : Thread) (asked : Request) → (step (run config steps).world (Call thread asked)).outcome ≡ Sent → IsMessageOf asked (last_sent thread config (steps ++ Call thread asked ∷ [])) }
{}
