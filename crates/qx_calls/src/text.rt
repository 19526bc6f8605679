//! Calls, each as the line of a script that makes it.

ghost use Rattle.std.specs.Prelude.{◌≡◌, ◌++◌, ◌∷◌, [], OnOk, codes, decimal};
ghost use Rattle.std.specs.Fmt.{signed_decimal};
ghost use Rattle.std.specs.List.{join_with_byte};
ghost use Rattle.qx_types.specs.declared.request.Request.{Request};
ghost use Rattle.qx_calls.specs.Calls.{call_text};
ghost use Rattle.qx_words.specs.FixedWords.{action_text, conditions_text, whence_text};
ghost use Rattle.qx_words.specs.WordText.{bytes_text, thread_text};

use qx_types::{
    Bytes, Coid, Conds, Config, NoMemory, NotifyAction, OFlags, Request, Thread, Whence,
};
use qx_words::text::{
    push_action, push_bytes, push_conditions, push_flags, push_mode, push_number, push_offset,
    push_thread, push_whence,
};

/// What a notification is to do, on which conditions, and the code and the value of its pulse.
#[derive(Clone, Copy)]
struct Notification {
    action: NotifyAction,
    conds: Conds,
    code: u8,
    value: u64,
}

/// The line that makes a call.
pub fn push_call(
    text: &mut Vec<u8>,
    config: &Config,
    thread: Thread,
    request: &Request,
) -> Result<(), NoMemory>
    ensures ok { OnOk result (text.new.items ≡ text.old.items ++ call_text config.now thread request.now) }
{
    match request {
        Request::OpenPath { path, flags, mode } => {
            push_open(text, config, thread, path, *flags, *mode)
        }
        Request::StatPath { path } => push_stat(text, config, thread, path),
        Request::Unlink { path } => push_unlink(text, config, thread, path),
        Request::Mkdir { path, mode } => push_mkdir(text, config, thread, path, *mode),
        Request::Rename { from, to } => push_rename(text, config, thread, from, to),
        Request::Read { coid, count } => push_read(text, config, thread, *coid, *count),
        Request::Write { coid, bytes } => push_write(text, config, thread, *coid, bytes),
        Request::Close { coid } => push_close(text, config, thread, *coid),
        Request::Dup { coid } => push_dup(text, config, thread, *coid),
        Request::Seek { coid, whence, by } => {
            push_seek(text, config, thread, *coid, *whence, *by)
        }
        Request::Fstat { coid } => push_fstat(text, config, thread, *coid),
        Request::List { coid, after } => push_list(text, config, thread, *coid, after),
        Request::Chmod { coid, mode } => push_chmod(text, config, thread, *coid, *mode),
        Request::Notify {
            coid,
            action,
            conds,
            code,
            value,
        } => {
            let notification = Notification {
                action: *action,
                conds: *conds,
                code: *code,
                value: u64::from(*value),
            };
            push_notify(text, config, thread, *coid, notification)
        }
        Request::Notify64 {
            coid,
            action,
            conds,
            code,
            value,
        } => {
            let notification = Notification {
                action: *action,
                conds: *conds,
                code: *code,
                value: *value,
            };
            push_notify64(text, config, thread, *coid, notification)
        }
        Request::Raw { coid, bytes } => push_raw(text, config, thread, *coid, bytes),
    }
}

/// A space and a number.
pub fn push_next_number(text: &mut Vec<u8>, number: u64) -> Result<(), NoMemory>
    ensures ok { OnOk result (text.new.items ≡ text.old.items ++ codes " " ++ decimal number) }
{
    text.push(b' ')?;
    push_number(text, number)
}

/// A space and bytes.
fn push_next_bytes(text: &mut Vec<u8>, bytes: &Bytes) -> Result<(), NoMemory>
    ensures ok { OnOk result (text.new.items ≡ text.old.items ++ codes " " ++ bytes_text bytes.now) }
{
    text.push(b' ')?;
    push_bytes(text, bytes.as_slice())
}

/// A line's first word, a thread and a path.
pub fn push_at_path(
    text: &mut Vec<u8>,
    config: &Config,
    name: &[u8],
    thread: Thread,
    path: &Bytes,
) -> Result<(), NoMemory>
    ensures ok { OnOk result (text.new.items ≡ text.old.items ++ name.now ++ codes " " ++ thread_text config.now thread ++ codes " " ++ path.now) }
{
    text.extend_from_slice(name)?;
    text.push(b' ')?;
    push_thread(text, config, thread)?;
    text.push(b' ')?;
    Ok(text.extend_from_slice(path.as_slice())?)
}

/// A line's first word, a thread and its connection.
fn push_over(
    text: &mut Vec<u8>,
    config: &Config,
    name: &[u8],
    thread: Thread,
    coid: Coid,
) -> Result<(), NoMemory>
    ensures ok { OnOk result (text.new.items ≡ text.old.items ++ name.now ++ codes " " ++ thread_text config.now thread ++ codes " " ++ decimal coid.0) }
{
    text.extend_from_slice(name)?;
    text.push(b' ')?;
    push_thread(text, config, thread)?;
    push_next_number(text, coid.0 as u64)
}

#[tactic(auto, unfolding(crate::specs::Calls::call_text))]
fn push_open(
    text: &mut Vec<u8>,
    config: &Config,
    thread: Thread,
    path: &Bytes,
    flags: OFlags,
    mode: u16,
) -> Result<(), NoMemory>
    ensures ok { OnOk result (text.new.items ≡ text.old.items ++ call_text config.now thread (Request.OpenPath flags mode path.now)) }
{
    push_at_path(text, config, b"open", thread, path)?;
    text.push(b' ')?;
    push_flags(text, flags)?;
    text.push(b' ')?;
    push_mode(text, mode)
}

#[tactic(auto, unfolding(crate::specs::Calls::call_text))]
fn push_stat(
    text: &mut Vec<u8>,
    config: &Config,
    thread: Thread,
    path: &Bytes,
) -> Result<(), NoMemory>
    ensures ok { OnOk result (text.new.items ≡ text.old.items ++ call_text config.now thread (Request.StatPath path.now)) }
{
    push_at_path(text, config, b"stat", thread, path)
}

#[tactic(auto, unfolding(crate::specs::Calls::call_text))]
fn push_unlink(
    text: &mut Vec<u8>,
    config: &Config,
    thread: Thread,
    path: &Bytes,
) -> Result<(), NoMemory>
    ensures ok { OnOk result (text.new.items ≡ text.old.items ++ call_text config.now thread (Request.Unlink path.now)) }
{
    push_at_path(text, config, b"unlink", thread, path)
}

#[tactic(auto, unfolding(crate::specs::Calls::call_text))]
fn push_mkdir(
    text: &mut Vec<u8>,
    config: &Config,
    thread: Thread,
    path: &Bytes,
    mode: u16,
) -> Result<(), NoMemory>
    ensures ok { OnOk result (text.new.items ≡ text.old.items ++ call_text config.now thread (Request.Mkdir mode path.now)) }
{
    push_at_path(text, config, b"mkdir", thread, path)?;
    text.push(b' ')?;
    push_mode(text, mode)
}

#[tactic(auto, unfolding(crate::specs::Calls::call_text))]
fn push_rename(
    text: &mut Vec<u8>,
    config: &Config,
    thread: Thread,
    from: &Bytes,
    to: &Bytes,
) -> Result<(), NoMemory>
    ensures ok { OnOk result (text.new.items ≡ text.old.items ++ call_text config.now thread (Request.Rename from.now to.now)) }
{
    push_at_path(text, config, b"rename", thread, from)?;
    text.push(b' ')?;
    Ok(text.extend_from_slice(to.as_slice())?)
}

#[tactic(auto, unfolding(crate::specs::Calls::call_text))]
fn push_read(
    text: &mut Vec<u8>,
    config: &Config,
    thread: Thread,
    coid: Coid,
    count: u32,
) -> Result<(), NoMemory>
    ensures ok { OnOk result (text.new.items ≡ text.old.items ++ call_text config.now thread (Request.Read coid count)) }
{
    push_over(text, config, b"read", thread, coid)?;
    push_next_number(text, count as u64)
}

#[tactic(auto, unfolding(crate::specs::Calls::call_text))]
fn push_write(
    text: &mut Vec<u8>,
    config: &Config,
    thread: Thread,
    coid: Coid,
    bytes: &Bytes,
) -> Result<(), NoMemory>
    ensures ok { OnOk result (text.new.items ≡ text.old.items ++ call_text config.now thread (Request.Write coid bytes.now)) }
{
    push_over(text, config, b"write", thread, coid)?;
    push_next_bytes(text, bytes)
}

#[tactic(auto, unfolding(crate::specs::Calls::call_text))]
fn push_close(
    text: &mut Vec<u8>,
    config: &Config,
    thread: Thread,
    coid: Coid,
) -> Result<(), NoMemory>
    ensures ok { OnOk result (text.new.items ≡ text.old.items ++ call_text config.now thread (Request.Close coid)) }
{
    push_over(text, config, b"close", thread, coid)
}

#[tactic(auto, unfolding(crate::specs::Calls::call_text))]
fn push_dup(text: &mut Vec<u8>, config: &Config, thread: Thread, coid: Coid) -> Result<(), NoMemory>
    ensures ok { OnOk result (text.new.items ≡ text.old.items ++ call_text config.now thread (Request.Dup coid)) }
{
    push_over(text, config, b"dup", thread, coid)
}

#[tactic(auto, unfolding(crate::specs::Calls::call_text))]
fn push_seek(
    text: &mut Vec<u8>,
    config: &Config,
    thread: Thread,
    coid: Coid,
    whence: Whence,
    by: i64,
) -> Result<(), NoMemory>
    ensures ok { OnOk result (text.new.items ≡ text.old.items ++ call_text config.now thread (Request.Seek coid whence by)) }
{
    push_over(text, config, b"seek", thread, coid)?;
    push_place(text, whence, by)
}

/// A space, where an offset counts from, and the offset.
fn push_place(text: &mut Vec<u8>, whence: Whence, by: i64) -> Result<(), NoMemory>
    ensures ok { OnOk result (text.new.items ≡ text.old.items ++ codes " " ++ whence_text whence ++ codes " " ++ signed_decimal by) }
{
    text.push(b' ')?;
    push_whence(text, whence)?;
    text.push(b' ')?;
    push_offset(text, by)
}

#[tactic(auto, unfolding(crate::specs::Calls::call_text))]
fn push_fstat(
    text: &mut Vec<u8>,
    config: &Config,
    thread: Thread,
    coid: Coid,
) -> Result<(), NoMemory>
    ensures ok { OnOk result (text.new.items ≡ text.old.items ++ call_text config.now thread (Request.Fstat coid)) }
{
    push_over(text, config, b"fstat", thread, coid)
}

#[tactic(auto, unfolding(crate::specs::Calls::call_text))]
fn push_list(
    text: &mut Vec<u8>,
    config: &Config,
    thread: Thread,
    coid: Coid,
    after: &Bytes,
) -> Result<(), NoMemory>
    ensures ok { OnOk result (text.new.items ≡ text.old.items ++ call_text config.now thread (Request.List coid after.now)) }
{
    push_over(text, config, b"list", thread, coid)?;
    if after.is_empty() {
        return Ok(());
    }
    text.push(b' ')?;
    Ok(text.extend_from_slice(after.as_slice())?)
}

#[tactic(auto, unfolding(crate::specs::Calls::call_text))]
fn push_chmod(
    text: &mut Vec<u8>,
    config: &Config,
    thread: Thread,
    coid: Coid,
    mode: u16,
) -> Result<(), NoMemory>
    ensures ok { OnOk result (text.new.items ≡ text.old.items ++ call_text config.now thread (Request.Chmod coid mode)) }
{
    push_over(text, config, b"chmod", thread, coid)?;
    text.push(b' ')?;
    push_mode(text, mode)
}

#[tactic(auto, unfolding(crate::specs::Calls::call_text))]
fn push_notify(
    text: &mut Vec<u8>,
    config: &Config,
    thread: Thread,
    coid: Coid,
    notification: Notification,
) -> Result<(), NoMemory>
    ensures ok { OnOk result (text.new.items ≡ text.old.items ++ call_text config.now thread (Request.Notify coid notification.action notification.conds notification.code notification.value)) }
{
    push_over(text, config, b"notify", thread, coid)?;
    text.push(b' ')?;
    push_notification(text, notification)
}

#[tactic(auto, unfolding(crate::specs::Calls::call_text))]
fn push_notify64(
    text: &mut Vec<u8>,
    config: &Config,
    thread: Thread,
    coid: Coid,
    notification: Notification,
) -> Result<(), NoMemory>
    ensures ok { OnOk result (text.new.items ≡ text.old.items ++ call_text config.now thread (Request.Notify64 coid notification.action notification.conds notification.code notification.value)) }
{
    push_over(text, config, b"notify64", thread, coid)?;
    text.push(b' ')?;
    push_notification(text, notification)
}

/// A notification's words.
fn push_notification(text: &mut Vec<u8>, notification: Notification) -> Result<(), NoMemory>
    ensures ok { OnOk result (text.new.items ≡ text.old.items ++ join_with_byte 32 (action_text notification.action ∷ conditions_text notification.conds ∷ decimal notification.code ∷ decimal notification.value ∷ [])) }
{
    push_action(text, notification.action)?;
    text.push(b' ')?;
    push_conditions(text, notification.conds)?;
    push_next_number(text, notification.code as u64)?;
    push_next_number(text, notification.value)
}

#[tactic(auto, unfolding(crate::specs::Calls::call_text))]
fn push_raw(
    text: &mut Vec<u8>,
    config: &Config,
    thread: Thread,
    coid: Coid,
    bytes: &Bytes,
) -> Result<(), NoMemory>
    ensures ok { OnOk result (text.new.items ≡ text.old.items ++ call_text config.now thread (Request.Raw coid bytes.now)) }
{
    push_over(text, config, b"raw", thread, coid)?;
    push_next_bytes(text, bytes)
}
