//! The laws of the machine, each a theorem over every configuration, every list of steps and every user number.

ghost use Rattle.std.specs.Prelude.{◌≡◌, ◌≢◌, ℕ, ◌<◌, ◌≤◌, Bool, false, true, All, filter, length, slice_get, List, [], Option, Some, None};
ghost use Rattle.std.specs.Cmp.Lexicographic.{slice_cmp};
ghost use Rattle.std.specs.List.Sorted.{IsStrictlySortedBy};
ghost use Rattle.std.specs.Ordering.{nat_cmp};
ghost use Rattle.qx_types.specs.Configuration.{Configuration};
ghost use Rattle.qx_types.specs.Managers.{manager_count, manager_number, managers};
ghost use Rattle.qx_types.specs.declared.names.Manager.{Manager};
ghost use Rattle.qx_types.specs.declared.step.Step.{Step};
ghost use Rattle.qx_machine.specs.declared.rows.Conditions.{Conditions};
ghost use Rattle.qx_machine.specs.declared.rows.Event.{Event};
ghost use Rattle.qx_isolation.specs.declared.rows.OwnItem.{OwnItem};
ghost use Rattle.qx_machine.specs.Events.{Events, is_due, is_on, polled, triggered};
ghost use Rattle.qx_machine.specs.Laws.{HoldsOfOwnSteps, IsInOrder, due_since, is_refusal, most_put, own_entries, put_count};
ghost use Rattle.qx_machine.specs.Listings.{HasAtMostOnePath, HasSizedNames, IsZeroFree, listed_by, listed_next};
ghost use Rattle.qx_machine.specs.Machine.{World, boot, line_of, own_held, owner, rank, step, view};
ghost use Rattle.qx_machine.specs.Names.{Names, listing, names_in};
ghost use Rattle.qx_machine.specs.Notification.{events_settled};
ghost use Rattle.qx_machine.specs.Parts.{Part};
ghost use Rattle.qx_machine.specs.Processes.{Process, has_ended};
ghost use Rattle.qx_machine.specs.Resources.{Resources};
ghost use Rattle.qx_isolation.specs.Rows.{lowest_from, row_at};
ghost use Rattle.qx_machine.specs.Runs.{erase, is_owner, received, run};
ghost use Rattle.qx_machine.specs.Settling.{is_kept};
ghost use Rattle.qx_machine.specs.Users.{serve};

/// A user receives the same if all steps that are not taken by or for that user are left out.
pub fn isolation()
    ensures { (config : Configuration) (steps : List Step) (user : ℕ) → received user (run config steps).entries ≡ received user (run config (erase user config steps)).entries }
{}

/// Two runs that differ only in what is not the user's give the user the same.
pub fn same_erasure()
    ensures { (config : Configuration) (steps others : List Step) (user : ℕ) → erase user config steps ≡ erase user config others → received user (run config steps).entries ≡ received user (run config others).entries }
{}

/// The run without what is not the user's ends in the user's view of the whole run's last world.
pub fn ends_in_view()
    ensures { (config : Configuration) (steps : List Step) (user : ℕ) → (run config (erase user config steps)).world ≡ view user (run config steps).world }
{}

/// The run without what is not the user's stores what the whole run stored of the user's steps, servers' steps included.
pub fn same_entries()
    ensures { (config : Configuration) (steps : List Step) (user : ℕ) → (run config (erase user config steps)).entries ≡ own_entries user (boot config) steps }
{}

/// What is left of the steps is left again.
pub fn erased_once()
    ensures { (config : Configuration) (steps : List Step) (user : ℕ) → erase user config (erase user config steps) ≡ erase user config steps }
{}

/// A step that is not taken by or for a user changes nothing that is that user's.
pub fn others_unseen()
    ensures { (config : Configuration) (steps : List Step) (user : ℕ) (e : Step) → is_owner user (owner (run config steps).world e) ≡ false → view user (step (run config steps).world e).world ≡ view user (run config steps).world }
{}

/// A step that is taken by or for a user goes in the user's view as in the whole world.
pub fn own_in_view()
    ensures same_owner { HoldsOfOwnSteps (λ user w e. owner (view user w) e ≡ owner w e) }
    ensures same_outcome { HoldsOfOwnSteps (λ user w e. (step (view user w) e).outcome ≡ (step w e).outcome) }
    ensures same_world { HoldsOfOwnSteps (λ user w e. (step (view user w) e).world ≡ view user (step w e).world) }
{}

/// A step that is nobody's changes nothing.
pub fn nobody_idle()
    ensures { (w : World) (e : Step) → owner w e ≡ None → (step w e).world ≡ w }
{}

/// A step that is refused changes nothing.
pub fn refusal_changes_nothing()
    ensures { (config : Configuration) (steps : List Step) (e : Step) → is_refusal (step (run config steps).world e).outcome ≡ true → (step (run config steps).world e).world ≡ (run config steps).world }
{}

/// Nothing is left to be settled: after any step, in any world, no event is armed of which a wanted condition came to hold
/// in that step; and between the steps of a run a process that has ended has a server connection, an item in a worker's hand
/// or a call that waits, and is gone with its number once it has none of these.
pub fn always_settled()
    ensures events { (w : World) (e : Step) (user : ℕ) (before after : Part) → row_at w.parts user ≡ Some before → row_at (step w e).world.parts user ≡ Some after → due_since before after ≡ [] }
    ensures processes { (config : Configuration) (steps : List Step) (user : ℕ) (part : Part) (number : ℕ) (process : Process) → row_at (run config steps).world.parts user ≡ Some part → row_at part.processes number ≡ Some process → has_ended process ≡ true → is_kept (own_held user (run config steps).world.hands) part.resources.pipes number process ≡ true }
{}

/// Nothing is due in a step that leaves all pipes and open control blocks as they were.
pub fn unchanged_conditions_trigger_nothing()
    ensures { (lives : ℕ → Bool) (before after : Resources) → after.inodes ≡ before.inodes → after.pipes ≡ before.pipes → events_settled lives before after ≡ after.events }
{}

/// A poll leaves nothing armed on its block (Writing a Resource Manager: `iofunc_notify`).
pub fn poll_disarms()
    ensures { (event : Event) (holding : Conditions) (events : Events) → filter (is_on event.block) (polled event holding events).events.armed ≡ [] }
{}

/// An event that is due is armed no more.
pub fn due_events_are_unarmed()
    ensures { (lives : ℕ → Bool) (before after : ℕ → Conditions) (events : Events) → filter (is_due before after) (triggered lives before after events).armed ≡ [] }
{}

/// Performing a message puts one pulse into a line at most, and performing a pulse puts none, so that serving all that waits
/// ends.
pub fn few_pulses_are_put()
    ensures { (config : Configuration) (user : ℕ) (held : List OwnItem) (part : Part) (item : OwnItem) (moment : ℕ) → put_count (serve config user held part item moment).changes ≤ most_put item }
{}

/// Each line is in order of priority.
pub fn lines_in_order()
    ensures { (config : Configuration) (steps : List Step) (manager : Manager) → IsInOrder rank (line_of (run config steps).world manager) }
{}

/// Each manager stands under a number of its own, below their count.
pub fn managers_apart()
    ensures there { (manager : Manager) → slice_get managers (manager_number manager) ≡ Some manager }
    ensures apart { (one other : Manager) → manager_number one ≡ manager_number other → one ≡ other }
    ensures all { length managers ≡ manager_count }
{}

/// The lowest free number from a first one on.
pub fn lowest_free<T>()
    ensures free { (first : ℕ) (places : List (Option T)) → row_at places (lowest_from first places) ≡ None }
    ensures not_below { (first : ℕ) (places : List (Option T)) → first ≤ lowest_from first places }
    ensures lowest { (first number : ℕ) (places : List (Option T)) → first ≤ number → number < lowest_from first places → row_at places number ≢ None }
{}

/// Whoever reads a directory listing by listing, each behind the last name given before, the first behind the empty name,
/// has all its names once a listing gives nothing, each once and in the order of their bytes (C Library Reference:
/// `readdir`). After as many listings as there are names, the next gives nothing. No two paths lead to the directory, and
/// its names have 1 to 64 bytes.
pub fn names_listed_whole()
    ensures rising { (names : Names) (directory : ℕ) → HasAtMostOnePath names directory → IsStrictlySortedBy (slice_cmp nat_cmp) (names_in names directory) }
    ensures whole { (names : Names) (directory listings : ℕ) → HasAtMostOnePath names directory → HasSizedNames names directory → listed_next names directory (listed_by listings names directory) ≡ [] → listed_by listings names directory ≡ names_in names directory }
    ensures ends { (names : Names) (directory listings : ℕ) → HasAtMostOnePath names directory → HasSizedNames names directory → length (names_in names directory) ≤ listings → listed_next names directory (listed_by listings names directory) ≡ [] }
{}

/// The bytes of a listing tell its names, where none has a zero byte.
pub fn listing_told()
    ensures { (names others : List (List ℕ)) → All IsZeroFree names → All IsZeroFree others → listing names ≡ listing others → names ≡ others }
{}
