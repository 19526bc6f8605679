use qx_types::{Request, Step, Thread, User};

/// What one line of a script asks for.
#[derive(Debug, Drop)]
pub enum Command {
    /// Takes a step.
    Take(Step),
    /// Serves all that waits, at a moment.
    Serve(u64),
    /// Takes a call, serves all that waits at a moment, and takes the reply if there is one.
    Do(u64, Thread, Request),
    /// Prints what a user was shown so far.
    Show(User),
    /// Runs anew the steps so far that were taken by or for a user, and prints what the user is shown there.
    Erased(User),
    /// Prints all steps so far, each with its outcome.
    Trace,
}
