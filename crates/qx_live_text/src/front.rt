//! A front, and what it answers to a line.

ghost use Rattle.std.specs.Prelude.{◌≡◌, ◌++◌, ◌∷◌, [], codes, None, IfOk, IfSome, OnOk, option_map};
ghost use Rattle.qx_play.specs.Printed.{transcript_text};
ghost use Rattle.qx_live.specs.Live.{after_line};
ghost use Rattle.qx_live.specs.Sessions.{due_of, session_of};
ghost use Rattle.qx_live_text.specs.Front.{answer, answer_timed, session_at, told, traced, unasked, with_setting};
ghost use Rattle.qx_live_text.specs.Fronts.{IsReady, front_of};

use crate::line::{BadLine, Said, Timed, at_moment, is_skipped, read};
use qx_isolation::Seen;
use qx_live::{LineFault, LiveLine, Session};
use qx_play::live::push_session;
use qx_play::text::push_seen;
use qx_types::{Config, NoMemory};
use std::alloc::Global;

/// Why a line was not answered to its end.
#[derive(Clone, Copy)]
pub enum Unanswered {
    /// Memory was short for the line, as the fault tells.
    Line(LineFault),
    /// Memory was short for the text of what the line led to, or to keep the line. What answers later lines is not told.
    Text,
    /// There were more lines than can be counted.
    Count,
}

/// What lines set so far, and from the first step on a session.
#[derive(Drop)]
pub struct Front {
    number: u64,
    settings: Vec<u8>,
    session: Option<Session>,
    kept: Option<Vec<LiveLine>>,
}

impl Front {
    /// Nothing is set. Lines are kept for `trace`, or not.
    pub fn new(alloc: Global, keeps: bool) -> Self
        ensures unasked { front_of result ≡ unasked keeps }
        ensures ready { IsReady result }
    {
        let kept = if keeps { Some(Vec::new(alloc)) } else { None };
        Front {
            number: 0,
            settings: Vec::new(alloc),
            session: None,
            kept,
        }
    }

    /// A line is answered behind a text.
    #[tactic(auto, unfolding(crate::specs::Front::answer))]
    pub fn answer(
        &mut self,
        alloc: Global,
        text: &mut Vec<u8>,
        line: &[u8],
    ) -> Result<(), Unanswered>
        ensures ready { IsReady self.old → OnOk result (IsReady self.new) }
        ensures front { IsReady self.old → OnOk result (front_of self.new ≡ (answer (front_of self.old) line.now).front) }
        ensures text { IsReady self.old → OnOk result (text.new.items ≡ text.old.items ++ (answer (front_of self.old) line.now).text) }
    {
        let Some(number) = self.number.checked_add(1) else {
            return Err(Unanswered::Count);
        };
        self.number = number;
        self.answer_timed(alloc, text, at_moment(number, line))
    }

    /// A line with its moment is answered.
    fn answer_timed(
        &mut self,
        alloc: Global,
        text: &mut Vec<u8>,
        line: Timed<'_>,
    ) -> Result<(), Unanswered>
        ensures ready { IsReady self.old → OnOk result (IsReady self.new) }
        ensures front { IsReady self.old → OnOk result (front_of self.new ≡ (answer_timed (front_of self.old) (record { moment = line.entry.moment; line = line.entry.line.now })).front) }
        ensures text { IsReady self.old → OnOk result (text.new.items ≡ text.old.items ++ (answer_timed (front_of self.old) (record { moment = line.entry.moment; line = line.entry.line.now })).text) }
    {
        if is_skipped(line.line) {
            return Ok(());
        }
        let said = match read(alloc, &self.settings, line) {
            Ok(said) => said,
            Err(_) => return Err(Unanswered::Line(LineFault::Refused)),
        };
        match said {
            Said::Setting => self.set(text, line.line),
            Said::Asks(config, asked) => self.ask(alloc, text, config, asked),
            Said::Traces(config) => self.trace(alloc, text, config),
            Said::Bad(bad) => push(text, bad.text()),
        }
    }

    /// A line that sets something; after the first step it is a bad one.
    fn set(&mut self, text: &mut Vec<u8>, line: &[u8]) -> Result<(), Unanswered>
        ensures ready { IsReady self.old → OnOk result (IsReady self.new) }
        ensures front { OnOk result (front_of self.new ≡ (with_setting (front_of self.old) line.now (front_of self.old).world).front) }
        ensures text { OnOk result (text.new.items ≡ text.old.items ++ (with_setting (front_of self.old) line.now (front_of self.old).world).text) }
    {
        if self.session.is_some() {
            return push(text, BadLine::Late.text());
        }
        match add_setting(&mut self.settings, line) {
            Ok(()) => Ok(()),
            Err(_) => Err(Unanswered::Line(LineFault::Refused)),
        }
    }

    /// A client's step.
    fn ask(
        &mut self,
        alloc: Global,
        text: &mut Vec<u8>,
        config: Config,
        line: LiveLine,
    ) -> Result<(), Unanswered>
        ensures ready { IsReady self.old → OnOk result (IsReady self.new) }
        ensures front { IsReady self.old → OnOk result (front_of self.new ≡ (told (front_of self.old) line (after_line (session_at config (front_of self.old).world) line)).front) }
        ensures text { IsReady self.old → OnOk result (text.new.items ≡ text.old.items ++ (told (front_of self.old) line (after_line (session_at config (front_of self.old).world) line)).text) }
    {
        let mut session = match session_or_new(alloc, config, self.session.take()) {
            Ok(session) => session,
            Err(_) => return Err(Unanswered::Line(LineFault::Refused)),
        };
        let answered = tell(&mut session, text, &line);
        self.session = Some(session);
        if let Err(Unanswered::Line(LineFault::Refused)) = answered {
            return answered;
        }
        if keep(&mut self.kept, line).is_err() {
            return Err(Unanswered::Text);
        }
        answered
    }

    /// The trace of the session, if its lines are kept.
    fn trace(&mut self, alloc: Global, text: &mut Vec<u8>, config: Config) -> Result<(), Unanswered>
        ensures same { self.new ≡ self.old }
        ensures text { OnOk result (text.new.items ≡ text.old.items ++ (traced (front_of self.old) config (front_of self.old).kept).text) }
    {
        let Some(lines) = &self.kept else {
            return push(text, BadLine::NotKept.text());
        };
        let before = text.len();
        match push_session(alloc, text, config, lines) {
            Ok(()) => Ok(()),
            Err(_) => {
                text.truncate(before);
                Err(Unanswered::Line(LineFault::Refused))
            }
        }
    }
}

/// The session, or a new one where there is none.
fn session_or_new(
    alloc: Global,
    config: Config,
    session: Option<Session>,
) -> Result<Session, NoMemory>
    ensures ready { IfSome session (λ session. due_of session ≡ None) → IfOk result (λ session. due_of session ≡ None) }
    ensures world { IfOk result (λ now. (session_of now).world ≡ (session_at config (option_map (λ session. (session_of session).world) session)).world) }
{
    match session {
        Some(session) => Ok(session),
        None => Session::new(alloc, config),
    }
}

/// What a line leads to, and the text of what is written at it.
fn tell(session: &mut Session, text: &mut Vec<u8>, line: &LiveLine) -> Result<(), Unanswered>
    ensures ready { OnOk result (due_of session.new ≡ None) }
    ensures world { due_of session.old ≡ None → OnOk result ((session_of session.new).world ≡ (after_line (record { world = (session_of session.old).world; written = [] }) line.now).world) }
    ensures text { due_of session.old ≡ None → OnOk result (text.new.items ≡ text.old.items ++ transcript_text (after_line (record { world = (session_of session.old).world; written = [] }) line.now).world.config (after_line (record { world = (session_of session.old).world; written = [] }) line.now).written) }
{
    session.written.clear();
    let taken = session.line(line);
    if push_all(text, session.world().config(), &session.written).is_err() {
        return Err(Unanswered::Text);
    }
    match taken {
        Ok(()) => Ok(()),
        Err(fault) => Err(Unanswered::Line(fault)),
    }
}

/// A line is kept, if lines are.
fn keep(kept: &mut Option<Vec<LiveLine>>, line: LiveLine) -> Result<(), NoMemory>
    ensures kept { OnOk result (option_map (λ lines. lines.items) kept.new ≡ option_map (λ lines. lines.items ++ line ∷ []) kept.old) }
{
    match kept {
        Some(lines) => Ok(lines.push(line)?),
        None => Ok(()),
    }
}

/// A line that sets something stands behind others, with the newline at its end, or nothing of it.
fn add_setting(settings: &mut Vec<u8>, line: &[u8]) -> Result<(), NoMemory>
    ensures added { OnOk result (settings.new.items ≡ settings.old.items ++ line.now ++ codes "\n") }
{
    let before = settings.len();
    settings.extend_from_slice(line)?;
    if settings.push(b'\n').is_err() {
        settings.truncate(before);
        return Err(NoMemory);
    }
    Ok(())
}

/// Bytes stand behind a text, or nothing of them.
fn push(text: &mut Vec<u8>, bytes: &[u8]) -> Result<(), Unanswered>
    ensures text { OnOk result (text.new.items ≡ text.old.items ++ bytes.now) }
{
    match text.extend_from_slice(bytes) {
        Ok(()) => Ok(()),
        Err(_) => Err(Unanswered::Line(LineFault::Refused)),
    }
}

/// The lines of what was written.
fn push_all(text: &mut Vec<u8>, config: &Config, seen: &[Seen]) -> Result<(), NoMemory>
    ensures ok { OnOk result (text.new.items ≡ text.old.items ++ transcript_text config.now seen.now) }
{
    'lines: for one in seen {
        push_seen(text, config, one.actor, &one.outcome)?;
    }
    Ok(())
}
