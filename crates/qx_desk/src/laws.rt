//! The laws of every front, each a theorem over all that a front may keep, be given and answer, every configuration and every list
//! of inputs, for some of which memory ran short.

ghost use Rattle.std.specs.Prelude.{◌≡◌, ◌≤◌, ℕ, List};
ghost use Rattle.qx_types.specs.Configuration.{Configuration};
ghost use Rattle.qx_live.specs.Live.{after_lines, begun, lines_of};
ghost use Rattle.qx_desk.specs.Fronts.{Arrived, Front, answers, desk_after, for_user, front_lines, inputs_of, opened};

/// A front's answers to a user over all inputs are all its answers over that user's inputs alone.
pub fn front_without_others<S, I, O>()
    ensures { (front : Front S I O) (config : Configuration) (inputs : List (Arrived S I)) (user : ℕ) → 1 ≤ config.workers → for_user user (answers front config inputs) ≡ answers front config (inputs_of user inputs) }
{}

/// A front's world is that of a live session, so of a run; and the lines of the session that are a user's are the lines over that
/// user's inputs alone.
pub fn front_is_session<S, I, O>()
    ensures world { (front : Front S I O) (config : Configuration) (inputs : List (Arrived S I)) → (desk_after front (opened front config) inputs).world ≡ (after_lines (begun config) (front_lines front config inputs)).world }
    ensures own { (front : Front S I O) (config : Configuration) (inputs : List (Arrived S I)) (user : ℕ) → 1 ≤ config.workers → lines_of user (front_lines front config inputs) ≡ front_lines front config (inputs_of user inputs) }
{}
