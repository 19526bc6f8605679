ghost use Rattle.std.specs.Prelude.{true, ◌≡◌, ◌==◌, ◌<◌, ◌≤◌, ◌^◌, IfOk, IfSome, OnOk, length, map, option_map, position};
ghost use Rattle.std.specs.Char.{is_ascii_digit};
ghost use Rattle.std.specs.List.{list_all};
ghost use Rattle.qx_types.specs.Configuration.{is_user_name};
ghost use Rattle.qx_words.specs.Words.{byte_of, flag_of, flags_after, flags_of, greatest_of_four_bytes, greatest_of_two_bytes, is_numeral, lines_of, mode_of, moment_of, name_in_word, negative, number_of, octal_of, offset_of, around_dot, process_in_word, thread_in_word, words_of};

pub use crate::fixed_words::{action, conditions, limit_name, manager, whence};
pub use crate::hexadecimal::{bytes, hex_byte};
use crate::users::Users;
use qx_types::{Config, OFlags, Proc, Thread};
use std::alloc::{AllocError, Global};

/// The lines of a text.
pub fn lines(alloc: Global, text: &[u8]) -> Result<Vec<&[u8]>, AllocError>
    ensures lines { IfOk result (λ lines. map (λ line. line.now) lines.items ≡ lines_of text.now) }
{
    text.split(|byte| *byte == b'\n').collect(alloc)
}

/// The words of a line come in the place of those that are there, and take their memory.
pub fn split_words<'a>(words: &mut Vec<&'a [u8]>, line: &'a [u8]) -> Result<(), AllocError>
    ensures words { OnOk result (map (λ word. word.now) words.new.items ≡ words_of line.now) }
{
    words.clear();
    for word in line.split(|byte| *byte == b' ') {
        if !word.is_empty() {
            words.push(word)?;
        }
    }
    Ok(())
}

/// Whether there are only digits.
fn are_digits(word: &[u8]) -> bool
    ensures digits { result ≡ list_all is_ascii_digit word.now }
{
    word.iter().all(|byte| byte.is_ascii_digit())
}

/// Whether a word is a number in digits without leading zeros.
fn is_numeral(word: &[u8]) -> bool
    ensures numeral { result ≡ is_numeral word.now }
{
    are_digits(word)
        && match word {
            [] => false,
            [_] => true,
            [first, ..] => *first != b'0',
        }
}

/// A number that is at most the greatest one.
#[tactic(auto, unfolding(crate::specs::Words::number_of))]
fn number(word: &[u8], greatest: u64) -> Option<u64>
    ensures number { result ≡ number_of greatest word.now }
    ensures bound { IfSome result (λ number. number ≤ greatest) }
{
    match word {
        [digit @ b'0'..=b'9'] if (*digit - b'0') as u64 <= greatest => {
            Some((*digit - b'0') as u64)
        }
        _ => any_number(word, greatest),
    }
}

/// The same of a word of any length. A function of its own, so that one digit doesn't pay for it.
#[inline(never)]
#[tactic(auto, unfolding(crate::specs::Words::number_of))]
fn any_number(word: &[u8], greatest: u64) -> Option<u64>
    ensures number { result ≡ number_of greatest word.now }
    ensures bound { IfSome result (λ number. number ≤ greatest) }
{
    if is_numeral(word) {
        parsed(numeral_text(word), greatest)
    } else {
        None
    }
}

/// The text of a word of digits.
#[tactic(auto, using(crate::proofs::Numbers::numeral_is_text))]
fn numeral_text(word: &[u8]) -> &str
    requires numeral { is_numeral word.now ≡ true }
    ensures same { result.now ≡ word.now }
{
    match std::str::from_utf8(word) {
        Ok(text) => text,
        Err(_) => unreachable!(),
    }
}

/// The number that a text of digits names, where it is at most the greatest one.
#[tactic(auto, unfolding(crate::specs::Words::number_of))]
fn parsed(text: &str, greatest: u64) -> Option<u64>
    requires numeral { is_numeral text.now ≡ true }
    ensures number { result ≡ number_of greatest text.now }
    ensures bound { IfSome result (λ number. number ≤ greatest) }
{
    match text.parse::<u64>() {
        Ok(number) if number <= greatest => Some(number),
        Ok(_) => None,
        Err(_) => None,
    }
}

/// A number of one byte.
pub fn byte(word: &[u8]) -> Option<u8>
    ensures byte { result ≡ byte_of word.now }
{
    let number = number(word, 255)?;
    Some(number as u8)
}

/// A name that a user may have.
pub fn name(word: &[u8]) -> Option<&[u8]>
    ensures name { option_map (λ name. name.now) result ≡ name_in_word word.now }
    ensures good { IfSome result (λ name. is_user_name name.now ≡ true) }
{
    if Config::is_user_name(word) {
        Some(word)
    } else {
        None
    }
}

/// A moment.
pub fn moment(word: &[u8]) -> Option<u64>
    ensures moment { result ≡ moment_of word.now }
{
    number(word, u64::MAX)
}

/// A number of two bytes.
pub fn two_byte_number(word: &[u8]) -> Option<u16>
    ensures number { result ≡ number_of greatest_of_two_bytes word.now }
{
    let number = number(word, u16::MAX as u64)?;
    Some(number as u16)
}

/// A number of four bytes.
pub fn four_byte_number(word: &[u8]) -> Option<u32>
    ensures number { result ≡ number_of greatest_of_four_bytes word.now }
{
    let number = number(word, u32::MAX as u64)?;
    Some(number as u32)
}

/// A number of 64 bits with a sign.
#[tactic(auto, unfolding(crate::specs::Words::offset_of))]
pub fn offset(word: &[u8]) -> Option<i64>
    ensures offset { result ≡ offset_of word.now }
{
    match word {
        [b'-', digits @ ..] => Some(negative(number(digits, 1 << 63)?)),
        _ => Some(number(word, i64::MAX as u64)? as i64),
    }
}

/// The negative of a number.
fn negative(number: u64) -> i64
    requires fits { number ≤ 2 ^ 63 }
    ensures negative { result ≡ negative number }
{
    if number == 1 << 63 {
        i64::MIN
    } else {
        -(number as i64)
    }
}

/// The place of the first dot.
fn place_of_dot(word: &[u8]) -> Option<usize>
    ensures first { result ≡ position (λ byte. byte == 46) word.now }
    ensures within { IfSome result (λ place. place < length word.now) }
{
    word.iter().position(|byte| *byte == b'.')
}

/// What stands before and after the first dot.
#[tactic(auto, unfolding(crate::specs::Words::around_dot))]
fn around_dot(word: &[u8]) -> Option<(&[u8], &[u8])>
    ensures parts { option_map (λ parts. (parts.0.now, parts.1.now)) result ≡ around_dot word.now }
{
    let place = place_of_dot(word)?;
    Some((&word[..place], &word[place + 1..]))
}

/// A process, as `ann.1`.
#[tactic(auto, unfolding(crate::specs::Words::process_in_word))]
pub fn process(users: &Users, word: &[u8]) -> Option<Proc>
    ensures process { result ≡ process_in_word users.now word.now }
{
    let (user, number) = around_dot(word)?;
    let user = users.find(user)?;
    let num = byte(number)?;
    Some(Proc { user, num })
}

/// A thread, as `ann.1.2`.
#[tactic(auto, unfolding(crate::specs::Words::thread_in_word))]
pub fn thread(users: &Users, word: &[u8]) -> Option<Thread>
    ensures thread { result ≡ thread_in_word users.now word.now }
{
    let (user, numbers) = around_dot(word)?;
    let user = users.find(user)?;
    let (process, thread) = around_dot(numbers)?;
    let num = byte(process)?;
    let tid = byte(thread)?;
    Some(Thread {
        proc: Proc { user, num },
        tid,
    })
}

/// The flag that a letter names.
pub fn flag(letter: u8) -> Option<u16>
    ensures flag { result ≡ flag_of letter }
{
    match letter {
        b'r' => Some(1),
        b'w' => Some(2),
        b'c' => Some(4),
        b'x' => Some(8),
        b't' => Some(16),
        b'a' => Some(32),
        b'n' => Some(64),
        _ => None,
    }
}

/// An octal digit.
fn octal(byte: u8) -> Option<u16>
    ensures octal { result ≡ octal_of byte }
{
    match byte {
        b'0'..=b'7' => Some((byte - b'0') as u16),
        _ => None,
    }
}

/// The flags that letters name.
#[tactic(auto, unfolding(crate::specs::Words::flags_of))]
pub fn flags(word: &[u8]) -> Option<OFlags>
    ensures flags { result ≡ flags_of word.now }
{
    if word.is_empty() {
        return None;
    }
    let flags = all_flags(word)?;
    Some(OFlags(flags))
}

/// The flags of letters, each at most once.
fn all_flags(word: &[u8]) -> Option<u16>
    ensures flags { result ≡ flags_after 0 word.now }
{
    let mut flags = 0;
    'letters: for letter in word {
        let flag = flag(*letter)?;
        if flags & flag != 0 {
            return None;
        }
        flags |= flag;
    }
    Some(flags)
}

/// A mode of three octal digits.
#[tactic(auto, unfolding(crate::specs::Words::mode_of))]
pub fn mode(word: &[u8]) -> Option<u16>
    ensures mode { result ≡ mode_of word.now }
{
    let [high, middle, low] = word else {
        return None;
    };
    let high = octal(*high)?;
    let middle = octal(*middle)?;
    let low = octal(*low)?;
    Some(high * 64 + middle * 8 + low)
}
