//! The laws of every such system, each a theorem over all rows of a user, all functions of these, every configuration, every
//! list of steps and every user number.

ghost use Rattle.std.specs.Prelude.{◌≡◌, ℕ, false, List, None};
ghost use Rattle.qx_types.specs.Configuration.{Configuration};
ghost use Rattle.qx_types.specs.declared.names.Manager.{Manager};
ghost use Rattle.qx_types.specs.declared.step.Step.{Step};
ghost use Rattle.qx_isolation.specs.System.{Behaviour, HoldsOfOwnSteps, IsInOrder, World, boot, erase, is_owner, line_of, own_entries, owner, rank, received, run, step, view};

/// A user receives the same if all steps that are not taken by or for that user are left out.
pub fn isolation<P>()
    ensures { (b : Behaviour P) (config : Configuration) (steps : List Step) (user : ℕ) → received user (run b config steps).entries ≡ received user (run b config (erase b user config steps)).entries }
{}

/// Two runs that differ only in what is not the user's give the user the same.
pub fn same_erasure<P>()
    ensures { (b : Behaviour P) (config : Configuration) (steps others : List Step) (user : ℕ) → erase b user config steps ≡ erase b user config others → received user (run b config steps).entries ≡ received user (run b config others).entries }
{}

/// The run without what is not the user's ends in the user's view of the whole run's last world.
pub fn ends_in_view<P>()
    ensures { (b : Behaviour P) (config : Configuration) (steps : List Step) (user : ℕ) → (run b config (erase b user config steps)).world ≡ view user (run b config steps).world }
{}

/// The run without what is not the user's stores what the whole run stored of the user's steps, workers' steps included.
pub fn same_entries<P>()
    ensures { (b : Behaviour P) (config : Configuration) (steps : List Step) (user : ℕ) → (run b config (erase b user config steps)).entries ≡ own_entries user (boot b config) steps }
{}

/// What is left of the steps is left again.
pub fn erased_once<P>()
    ensures { (b : Behaviour P) (config : Configuration) (steps : List Step) (user : ℕ) → erase b user config (erase b user config steps) ≡ erase b user config steps }
{}

/// A step that is not taken by or for a user changes nothing that is that user's.
pub fn others_unseen<P>()
    ensures { (b : Behaviour P) (config : Configuration) (steps : List Step) (user : ℕ) (e : Step) → is_owner user (owner (run b config steps).world e) ≡ false → view user (step (run b config steps).world e).world ≡ view user (run b config steps).world }
{}

/// A step that is taken by or for a user goes in the user's view as in the whole world.
pub fn own_in_view<P>()
    ensures same_owner { (b : Behaviour P) → HoldsOfOwnSteps b (λ user w e. owner (view user w) e ≡ owner w e) }
    ensures same_outcome { (b : Behaviour P) → HoldsOfOwnSteps b (λ user w e. (step (view user w) e).outcome ≡ (step w e).outcome) }
    ensures same_world { (b : Behaviour P) → HoldsOfOwnSteps b (λ user w e. (step (view user w) e).world ≡ view user (step w e).world) }
{}

/// A step that is nobody's changes nothing.
pub fn nobody_idle<P>()
    ensures { (b : Behaviour P) (w : World b) (e : Step) → owner w e ≡ None → (step w e).world ≡ w }
{}

/// Each line is in order of priority.
pub fn lines_in_order<P>()
    ensures { (b : Behaviour P) (config : Configuration) (steps : List Step) (manager : Manager) → IsInOrder rank (line_of (run b config steps).world manager) }
{}
