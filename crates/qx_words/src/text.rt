//! The text of words.

ghost use Rattle.std.specs.Prelude.{◌≡◌, ◌++◌, OnOk, decimal, filter};
ghost use Rattle.std.specs.Fmt.{signed_decimal};
ghost use Rattle.hex.specs.Hex.{encode_lower};
ghost use Rattle.qx_words.specs.FixedWords.{action_text, conditions_text, manager_text, whence_text};
ghost use Rattle.qx_words.specs.WordText.{bytes_text, flags_text, is_given, last_octal_digit, mode_text, process_text, thread_text, user_text};

use crate::words::flag;
use itoa::Buffer;
use qx_types::{
    Bytes, Conds, Config, Manager, NoMemory, NotifyAction, OFlags, Proc, Thread, User, Whence,
};

/// A number in decimal digits.
#[tactic(auto, using(std::proofs::lemmas::Fmt::decimal_digit))]
pub fn push_number(text: &mut Vec<u8>, number: u64) -> Result<(), NoMemory>
    ensures ok { OnOk result (text.new.items ≡ text.old.items ++ decimal number) }
{
    if number < 10 {
        return Ok(text.push(b'0' + number as u8)?);
    }
    push_digits(text, number)
}

/// The same of any number. A function of its own, so that one digit doesn't pay for it.
#[inline(never)]
fn push_digits(text: &mut Vec<u8>, number: u64) -> Result<(), NoMemory>
    ensures ok { OnOk result (text.new.items ≡ text.old.items ++ decimal number) }
{
    let mut buffer = Buffer::new();
    Ok(text.extend_from_slice(buffer.format(number).as_bytes())?)
}

/// A number in decimal digits, with a `-` if it is below zero.
pub fn push_offset(text: &mut Vec<u8>, offset: i64) -> Result<(), NoMemory>
    ensures ok { OnOk result (text.new.items ≡ text.old.items ++ signed_decimal offset) }
{
    let mut buffer = Buffer::new();
    Ok(text.extend_from_slice(buffer.format(offset).as_bytes())?)
}

/// A user's name.
#[tactic(auto, unfolding(crate::specs::WordText::user_text))]
pub fn push_user(text: &mut Vec<u8>, config: &Config, user: User) -> Result<(), NoMemory>
    ensures ok { OnOk result (text.new.items ≡ text.old.items ++ user_text config.now user.0) }
{
    match config.name(user) {
        Some(name) => Ok(text.extend_from_slice(name.as_slice())?),
        None => Ok(()),
    }
}

/// A process, as `ann.1`.
#[inline(always)]
#[tactic(auto, unfolding(crate::specs::WordText::process_text))]
pub fn push_process(text: &mut Vec<u8>, config: &Config, process: Proc) -> Result<(), NoMemory>
    ensures ok { OnOk result (text.new.items ≡ text.old.items ++ process_text config.now process) }
{
    push_user(text, config, process.user)?;
    text.push(b'.')?;
    push_number(text, process.num as u64)
}

/// A thread, as `ann.1.2`. Numbers of one digit, as most have, are put at once.
#[inline(always)]
#[tactic(auto, unfolding(crate::specs::WordText::thread_text))]
pub fn push_thread(text: &mut Vec<u8>, config: &Config, thread: Thread) -> Result<(), NoMemory>
    ensures ok { OnOk result (text.new.items ≡ text.old.items ++ thread_text config.now thread) }
{
    let Thread { proc, tid } = thread;
    if proc.num < 10 && tid < 10 {
        push_user(text, config, proc.user)?;
        let numbers = [b'.', b'0' + proc.num, b'.', b'0' + tid];
        return Ok(text.extend_from_slice(&numbers)?);
    }
    push_process(text, config, proc)?;
    text.push(b'.')?;
    push_number(text, tid as u64)
}

/// Hexadecimal digits, or `-` for no bytes.
#[tactic(auto, unfolding(crate::specs::WordText::bytes_text))]
pub fn push_bytes(text: &mut Vec<u8>, bytes: &[u8]) -> Result<(), NoMemory>
    ensures ok { OnOk result (text.new.items ≡ text.old.items ++ bytes_text bytes.now) }
{
    if bytes.is_empty() {
        return Ok(text.push(b'-')?);
    }
    push_hexadecimal(text, bytes)
}

/// The same of some bytes. A function of its own, so that no bytes don't pay for it.
#[inline(never)]
fn push_hexadecimal(text: &mut Vec<u8>, bytes: &[u8]) -> Result<(), NoMemory>
    ensures ok { OnOk result (text.new.items ≡ text.old.items ++ encode_lower bytes.now) }
{
    let start = text.len();
    let Some(end) = start.checked_add(2 * bytes.len()) else {
        return Err(NoMemory);
    };
    text.resize(end, 0)?;
    match hex::encode_to_slice(bytes, &mut text[start..]) {
        Ok(()) => Ok(()),
        Err(_) => unreachable!(),
    }
}

/// The word of a manager.
pub fn manager_word(manager: Manager) -> &'static [u8]
    ensures word { result.now ≡ manager_text manager }
{
    match manager {
        Manager::Ram => b"ram",
        Manager::Pipe => b"pipe",
        Manager::Device(device) => device.word(),
    }
}

/// A manager.
pub fn push_manager(text: &mut Vec<u8>, manager: Manager) -> Result<(), NoMemory>
    ensures ok { OnOk result (text.new.items ≡ text.old.items ++ manager_text manager) }
{
    Ok(text.extend_from_slice(manager_word(manager))?)
}

/// Where an offset counts from.
pub fn push_whence(text: &mut Vec<u8>, whence: Whence) -> Result<(), NoMemory>
    ensures ok { OnOk result (text.new.items ≡ text.old.items ++ whence_text whence) }
{
    match whence {
        Whence::Set => Ok(text.extend_from_slice(b"set")?),
        Whence::Current => Ok(text.extend_from_slice(b"cur")?),
        Whence::End => Ok(text.extend_from_slice(b"end")?),
    }
}

/// What a notification is to do.
pub fn push_action(text: &mut Vec<u8>, action: NotifyAction) -> Result<(), NoMemory>
    ensures ok { OnOk result (text.new.items ≡ text.old.items ++ action_text action) }
{
    match action {
        NotifyAction::Poll => Ok(text.extend_from_slice(b"poll")?),
        NotifyAction::PollArm => Ok(text.extend_from_slice(b"pollarm")?),
        NotifyAction::TranArm => Ok(text.extend_from_slice(b"tranarm")?),
    }
}

/// The letters of conditions.
pub fn push_conditions(text: &mut Vec<u8>, conditions: Conds) -> Result<(), NoMemory>
    ensures ok { OnOk result (text.new.items ≡ text.old.items ++ conditions_text conditions) }
{
    match conditions.0 {
        1 => Ok(text.extend_from_slice(b"i")?),
        2 => Ok(text.extend_from_slice(b"o")?),
        _ => Ok(text.extend_from_slice(b"io")?),
    }
}

/// The letters of flags.
#[tactic(auto, unfolding(crate::specs::WordText::flags_text))]
pub fn push_flags(text: &mut Vec<u8>, flags: OFlags) -> Result<(), NoMemory>
    ensures ok { OnOk result (text.new.items ≡ text.old.items ++ flags_text flags) }
{
    push_given(text, flags, b"rwcxtan")
}

/// Those of some letters whose flags are given.
fn push_given(text: &mut Vec<u8>, flags: OFlags, letters: &[u8]) -> Result<(), NoMemory>
    ensures ok { OnOk result (text.new.items ≡ text.old.items ++ filter (is_given flags.0) letters.now) }
{
    'letters: for letter in letters {
        if is_given(flags, *letter) {
            text.push(*letter)?;
        }
    }
    Ok(())
}

/// Whether the flag of a letter is among the flags.
fn is_given(flags: OFlags, letter: u8) -> bool
    ensures given { result ≡ is_given flags.0 letter }
{
    match flag(letter) {
        Some(flag) => flags.0 & flag != 0,
        None => false,
    }
}

/// A mode's last three octal digits.
#[tactic(auto, unfolding(crate::specs::WordText::mode_text))]
pub fn push_mode(text: &mut Vec<u8>, mode: u16) -> Result<(), NoMemory>
    ensures ok { OnOk result (text.new.items ≡ text.old.items ++ mode_text mode) }
{
    text.push(last_octal_digit(mode / 64))?;
    text.push(last_octal_digit(mode / 8))?;
    Ok(text.push(last_octal_digit(mode))?)
}

fn last_octal_digit(number: u16) -> u8
    ensures digit { result ≡ last_octal_digit number }
{
    b'0' + (number % 8) as u8
}
