//! What the lines that call ask for.

ghost use Rattle.std.specs.Prelude.{◌≡◌, ◌∷◌, [], IfOk, if◌then◌else◌, map};
ghost use Rattle.qx_calls.specs.Calls.{call_in_line, call_over_of, chmod_line, close_line, connection_numbered, dup_line, fill_line, fstat_line, list_line, mkdir_line, notify_64_line, notify_line, open_line, raw_line, read_line, rename_line, seek_line, stat_line, unlink_line, write_line};
ghost use Rattle.qx_calls.specs.Forms.{◌then◌, end, read_form, read_words};
ghost use Rattle.qx_words.specs.Kinds.{AThread, AByte, APath, SomeBytes};

use qx_types::{Bytes, Coid, NoMemory, Request, Thread};
use qx_words::Users;
use qx_words::words::{
    action, byte, bytes, conditions, flags, four_byte_number, hex_byte, mode, moment, offset,
    thread, two_byte_number, whence,
};
use std::alloc::Global;

/// Who calls and for what.
pub type Call = (Thread, Request);

/// A thread and its connection.
fn over(users: &Users, thread_word: &[u8], coid_word: &[u8]) -> Option<(Thread, Coid)>
    ensures found { result ≡ read_words (AThread then AByte then end) (λ thread number. (thread, connection_numbered number)) users.now (thread_word.now ∷ coid_word.now ∷ []) }
{
    let thread = thread(users, thread_word)?;
    let coid = Coid(byte(coid_word)?);
    Some((thread, coid))
}

/// `THREAD CONNECTION`
fn over_alone(users: &Users, words: &[&[u8]]) -> Option<(Thread, Coid)>
    ensures found { result ≡ read_words (AThread then AByte then end) (λ thread number. (thread, connection_numbered number)) users.now (map (λ word. word.now) words.now) }
{
    let [thread_word, coid_word] = words else {
        return None;
    };
    over(users, *thread_word, *coid_word)
}

/// `THREAD CONNECTION BYTES`
fn over_with_bytes(
    alloc: Global,
    users: &Users,
    words: &[&[u8]],
) -> Result<Option<(Thread, Coid, Bytes)>, NoMemory>
    ensures found { IfOk result (λ found. found ≡ read_words (AThread then AByte then SomeBytes then end) (λ thread number bytes. (thread, connection_numbered number, bytes)) users.now (map (λ word. word.now) words.now)) }
{
    let [thread_word, coid_word, bytes_word] = words else {
        return Ok(None);
    };
    let Some((thread, coid)) = over(users, *thread_word, *coid_word) else {
        return Ok(None);
    };
    let Some(bytes) = bytes(alloc, *bytes_word)? else {
        return Ok(None);
    };
    Ok(Some((thread, coid, bytes)))
}

/// `THREAD PATH`
fn at_path(
    alloc: Global,
    users: &Users,
    words: &[&[u8]],
) -> Result<Option<(Thread, Bytes)>, NoMemory>
    ensures found { IfOk result (λ found. found ≡ read_words (AThread then APath then end) (λ thread path. (thread, path)) users.now (map (λ word. word.now) words.now)) }
{
    let [thread_word, path] = words else {
        return Ok(None);
    };
    let Some(thread) = thread(users, *thread_word) else {
        return Ok(None);
    };
    let path = Bytes::from_slice(alloc, *path)?;
    Ok(Some((thread, path)))
}

/// `open THREAD PATH FLAGS MODE`
fn open(alloc: Global, users: &Users, words: &[&[u8]]) -> Result<Option<Call>, NoMemory>
    ensures call { IfOk result (λ call. call ≡ read_form open_line users.now (map (λ word. word.now) words.now)) }
{
    let [thread_word, path, flags_word, mode_word] = words else {
        return Ok(None);
    };
    let Some(thread) = thread(users, *thread_word) else {
        return Ok(None);
    };
    let Some(flags) = flags(*flags_word) else {
        return Ok(None);
    };
    let Some(mode) = mode(*mode_word) else {
        return Ok(None);
    };
    let path = Bytes::from_slice(alloc, *path)?;
    Ok(Some((thread, Request::OpenPath { path, flags, mode })))
}

/// `stat THREAD PATH`
fn stat(alloc: Global, users: &Users, words: &[&[u8]]) -> Result<Option<Call>, NoMemory>
    ensures call { IfOk result (λ call. call ≡ read_form stat_line users.now (map (λ word. word.now) words.now)) }
{
    let Some((thread, path)) = at_path(alloc, users, words)? else {
        return Ok(None);
    };
    Ok(Some((thread, Request::StatPath { path })))
}

/// `unlink THREAD PATH`
fn unlink(alloc: Global, users: &Users, words: &[&[u8]]) -> Result<Option<Call>, NoMemory>
    ensures call { IfOk result (λ call. call ≡ read_form unlink_line users.now (map (λ word. word.now) words.now)) }
{
    let Some((thread, path)) = at_path(alloc, users, words)? else {
        return Ok(None);
    };
    Ok(Some((thread, Request::Unlink { path })))
}

/// `mkdir THREAD PATH MODE`
fn mkdir(alloc: Global, users: &Users, words: &[&[u8]]) -> Result<Option<Call>, NoMemory>
    ensures call { IfOk result (λ call. call ≡ read_form mkdir_line users.now (map (λ word. word.now) words.now)) }
{
    let [thread_word, path, mode_word] = words else {
        return Ok(None);
    };
    let Some(thread) = thread(users, *thread_word) else {
        return Ok(None);
    };
    let Some(mode) = mode(*mode_word) else {
        return Ok(None);
    };
    let path = Bytes::from_slice(alloc, *path)?;
    Ok(Some((thread, Request::Mkdir { path, mode })))
}

/// `rename THREAD PATH PATH`
fn rename(alloc: Global, users: &Users, words: &[&[u8]]) -> Result<Option<Call>, NoMemory>
    ensures call { IfOk result (λ call. call ≡ read_form rename_line users.now (map (λ word. word.now) words.now)) }
{
    let [thread_word, from, to] = words else {
        return Ok(None);
    };
    let Some(thread) = thread(users, *thread_word) else {
        return Ok(None);
    };
    let from = Bytes::from_slice(alloc, *from)?;
    let to = Bytes::from_slice(alloc, *to)?;
    Ok(Some((thread, Request::Rename { from, to })))
}

/// `read THREAD CONNECTION COUNT`
fn read(users: &Users, words: &[&[u8]]) -> Option<Call>
    ensures call { result ≡ read_form read_line users.now (map (λ word. word.now) words.now) }
{
    let [thread_word, coid_word, count_word] = words else {
        return None;
    };
    let (thread, coid) = over(users, *thread_word, *coid_word)?;
    let count = four_byte_number(*count_word)?;
    Some((thread, Request::Read { coid, count }))
}

/// `write THREAD CONNECTION BYTES`
fn write(alloc: Global, users: &Users, words: &[&[u8]]) -> Result<Option<Call>, NoMemory>
    ensures call { IfOk result (λ call. call ≡ read_form write_line users.now (map (λ word. word.now) words.now)) }
{
    let Some((thread, coid, bytes)) = over_with_bytes(alloc, users, words)? else {
        return Ok(None);
    };
    Ok(Some((thread, Request::Write { coid, bytes })))
}

/// `fill THREAD CONNECTION COUNT BYTE`: a write of so many times that byte.
fn fill(alloc: Global, users: &Users, words: &[&[u8]]) -> Result<Option<Call>, NoMemory>
    ensures call { IfOk result (λ call. call ≡ read_form fill_line users.now (map (λ word. word.now) words.now)) }
{
    let [thread_word, coid_word, count_word, byte_word] = words else {
        return Ok(None);
    };
    let Some((thread, coid)) = over(users, *thread_word, *coid_word) else {
        return Ok(None);
    };
    let Some(count) = two_byte_number(*count_word) else {
        return Ok(None);
    };
    let Some(byte) = hex_byte(*byte_word) else {
        return Ok(None);
    };
    let bytes = Bytes::from_vec(vec![in alloc; byte; count as usize]?);
    Ok(Some((thread, Request::Write { coid, bytes })))
}

/// `close THREAD CONNECTION`
fn close(users: &Users, words: &[&[u8]]) -> Option<Call>
    ensures call { result ≡ read_form close_line users.now (map (λ word. word.now) words.now) }
{
    let (thread, coid) = over_alone(users, words)?;
    Some((thread, Request::Close { coid }))
}

/// `dup THREAD CONNECTION`
fn dup(users: &Users, words: &[&[u8]]) -> Option<Call>
    ensures call { result ≡ read_form dup_line users.now (map (λ word. word.now) words.now) }
{
    let (thread, coid) = over_alone(users, words)?;
    Some((thread, Request::Dup { coid }))
}

/// `seek THREAD CONNECTION set|cur|end OFFSET`
fn seek(users: &Users, words: &[&[u8]]) -> Option<Call>
    ensures call { result ≡ read_form seek_line users.now (map (λ word. word.now) words.now) }
{
    let [thread_word, coid_word, whence_word, by_word] = words else {
        return None;
    };
    let (thread, coid) = over(users, *thread_word, *coid_word)?;
    let whence = whence(*whence_word)?;
    let by = offset(*by_word)?;
    Some((thread, Request::Seek { coid, whence, by }))
}

/// `fstat THREAD CONNECTION`
fn fstat(users: &Users, words: &[&[u8]]) -> Option<Call>
    ensures call { result ≡ read_form fstat_line users.now (map (λ word. word.now) words.now) }
{
    let (thread, coid) = over_alone(users, words)?;
    Some((thread, Request::Fstat { coid }))
}

/// `list THREAD CONNECTION`, and a name or none: the names behind that one, or the first ones.
fn list(alloc: Global, users: &Users, words: &[&[u8]]) -> Result<Option<Call>, NoMemory>
    ensures call { IfOk result (λ call. call ≡ read_form list_line users.now (map (λ word. word.now) words.now)) }
{
    let (thread_word, coid_word, after) = match words {
        [thread_word, coid_word] => (*thread_word, *coid_word, b"".as_slice()),
        [thread_word, coid_word, after] => (*thread_word, *coid_word, *after),
        _ => return Ok(None),
    };
    let Some((thread, coid)) = over(users, thread_word, coid_word) else {
        return Ok(None);
    };
    let after = Bytes::from_slice(alloc, after)?;
    Ok(Some((thread, Request::List { coid, after })))
}

/// `chmod THREAD CONNECTION MODE`
fn chmod(users: &Users, words: &[&[u8]]) -> Option<Call>
    ensures call { result ≡ read_form chmod_line users.now (map (λ word. word.now) words.now) }
{
    let [thread_word, coid_word, mode_word] = words else {
        return None;
    };
    let (thread, coid) = over(users, *thread_word, *coid_word)?;
    let mode = mode(*mode_word)?;
    Some((thread, Request::Chmod { coid, mode }))
}

/// `notify THREAD CONNECTION poll|pollarm|tranarm CONDITIONS CODE VALUE`, or `notify64`, whose value is a wide one.
fn notify(users: &Users, words: &[&[u8]], is_wide: bool) -> Option<Call>
    ensures call { result ≡ (if is_wide then read_form notify_64_line else read_form notify_line) users.now (map (λ word. word.now) words.now) }
{
    let [
        thread_word,
        coid_word,
        action_word,
        conditions_word,
        code_word,
        value_word,
    ] = words
    else {
        return None;
    };
    let (thread, coid) = over(users, *thread_word, *coid_word)?;
    let action = action(*action_word)?;
    let conds = conditions(*conditions_word)?;
    let code = byte(*code_word)?;
    let request = if is_wide {
        Request::Notify64 {
            coid,
            action,
            conds,
            code,
            value: moment(*value_word)?,
        }
    } else {
        Request::Notify {
            coid,
            action,
            conds,
            code,
            value: four_byte_number(*value_word)?,
        }
    };
    Some((thread, request))
}

/// `raw THREAD CONNECTION BYTES`
fn raw(alloc: Global, users: &Users, words: &[&[u8]]) -> Result<Option<Call>, NoMemory>
    ensures call { IfOk result (λ call. call ≡ read_form raw_line users.now (map (λ word. word.now) words.now)) }
{
    let Some((thread, coid, bytes)) = over_with_bytes(alloc, users, words)? else {
        return Ok(None);
    };
    Ok(Some((thread, Request::Raw { coid, bytes })))
}

/// A call over a connection, by the first word of its line.
#[tactic(auto, unfolding(crate::specs::Calls::call_over_of))]
fn call_over(
    alloc: Global,
    users: &Users,
    name: &[u8],
    words: &[&[u8]],
) -> Result<Option<Call>, NoMemory>
    ensures call { IfOk result (λ call. call ≡ call_over_of users.now name.now (map (λ word. word.now) words.now)) }
{
    if name == b"read".as_slice() {
        Ok(read(users, words))
    } else if name == b"write".as_slice() {
        write(alloc, users, words)
    } else if name == b"fill".as_slice() {
        fill(alloc, users, words)
    } else if name == b"close".as_slice() {
        Ok(close(users, words))
    } else if name == b"dup".as_slice() {
        Ok(dup(users, words))
    } else if name == b"seek".as_slice() {
        Ok(seek(users, words))
    } else if name == b"fstat".as_slice() {
        Ok(fstat(users, words))
    } else if name == b"list".as_slice() {
        list(alloc, users, words)
    } else if name == b"chmod".as_slice() {
        Ok(chmod(users, words))
    } else if name == b"notify".as_slice() {
        Ok(notify(users, words, false))
    } else if name == b"notify64".as_slice() {
        Ok(notify(users, words, true))
    } else if name == b"raw".as_slice() {
        raw(alloc, users, words)
    } else {
        Ok(None)
    }
}

/// Who calls and for what, by the first word of the call's line.
#[tactic(auto, unfolding(crate::specs::Calls::call_in_line))]
pub fn call(
    alloc: Global,
    users: &Users,
    name: &[u8],
    words: &[&[u8]],
) -> Result<Option<Call>, NoMemory>
    ensures call { IfOk result (λ call. call ≡ call_in_line users.now name.now (map (λ word. word.now) words.now)) }
{
    if name == b"open".as_slice() {
        open(alloc, users, words)
    } else if name == b"stat".as_slice() {
        stat(alloc, users, words)
    } else if name == b"unlink".as_slice() {
        unlink(alloc, users, words)
    } else if name == b"mkdir".as_slice() {
        mkdir(alloc, users, words)
    } else if name == b"rename".as_slice() {
        rename(alloc, users, words)
    } else {
        call_over(alloc, users, name, words)
    }
}
