//! Laws of scripts that are run: what their traces say, and what of others is in what they show.

ghost use Rattle.std.specs.Prelude.{◌≡◌, ◌++◌, ◌∷◌, [], ℕ, All, List, map};
ghost use Rattle.qx_types.specs.Configuration.{Configuration, HasLimits, IsConfiguration};
ghost use Rattle.qx_types.specs.declared.names.User.{User};
ghost use Rattle.qx_types.specs.declared.step.Step.{Step};
ghost use Rattle.qx_machine.specs.Runs.{erase, received, run};
ghost use Rattle.qx_script.specs.declared.command.Command.{Command};
ghost use Rattle.qx_script.specs.declared.command.Command.TheVariants.{Erased, Show, Take};
ghost use Rattle.qx_script.specs.Lines.{CanSay};
ghost use Rattle.qx_script.specs.Replay.{replay_text};
ghost use Rattle.qx_script.specs.Script.{Good, script};
ghost use Rattle.qx_play.specs.Play.{played, shown};
ghost use Rattle.qx_play.specs.Printed.{transcript_text};

/// All steps that a script takes, those of its `serve` and `do` lines too, are such that a line can say them.
pub fn played_steps_can_be_said()
    ensures configured { (text : List ℕ) (config : Configuration) (commands : List Command) → script text ≡ Good config commands → IsConfiguration config.users config.workers }
    ensures limits { (text : List ℕ) (config : Configuration) (commands : List Command) → script text ≡ Good config commands → HasLimits config }
    ensures said { (text : List ℕ) (config : Configuration) (commands : List Command) → script text ≡ Good config commands → All (CanSay config.users) (played config commands).steps }
{}

/// The steps of a trace, with the users, what is set for them and the number of workers before them, are a script that takes
/// the same steps.
pub fn trace_replayed()
    ensures script { (config : Configuration) (steps : List Step) → IsConfiguration config.users config.workers → HasLimits config → All (CanSay config.users) steps → script (replay_text config steps) ≡ Good config (map Take steps) }
    ensures steps { (config : Configuration) (steps : List Step) → (played config (map Take steps)).steps ≡ steps }
{}

/// What `show` prints for a user after any lines is what it prints in the run of these lines' steps without those that are not taken by or for that user.
pub fn shown_without_others()
    ensures same_text { (config : Configuration) (commands : List Command) (user : User) → shown config (commands ++ Show user ∷ []) ≡ shown config commands ++ transcript_text config (received user.0 (run config (erase user.0 config (played config commands).steps)).entries) }
{}

/// What `erased` prints for a user after any lines is what `show` prints there.
pub fn erased_as_shown()
    ensures same_text { (config : Configuration) (commands : List Command) (user : User) → shown config (commands ++ Erased user ∷ []) ≡ shown config (commands ++ Show user ∷ []) }
{}
