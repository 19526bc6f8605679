//! Numbers, one behind the other, each with its lowest byte first.
ghost use Rattle.std.specs.Prelude.{◌≡◌, ◌≤◌, ◌+◌, ◌++◌, length, vec_len, vec_capacity};
ghost use Rattle.qx_fuse_wire.specs.Replies.{number_bytes, numbers_bytes};

/// A number of 16, 32 or 64 bits.
#[derive(Clone, Copy, Debug)]
pub enum Number {
    Half(u16),
    Word(u32),
    Long(u64),
}

/// Puts bytes behind those that are there. There is room for them.
pub fn put_bytes(out: &mut Vec<u8>, bytes: &[u8])
    requires room { vec_len out.old + length bytes.now ≤ vec_capacity out.old }
    ensures bytes { out.new.items ≡ out.old.items ++ bytes.now }
    ensures len { vec_len out.new ≡ vec_len out.old + length bytes.now }
    ensures room { vec_capacity out.old ≤ vec_capacity out.new }
{
    match out.extend_from_slice(bytes) {
        Ok(()) => {}
        Err(_) => unreachable!(),
    }
}

/// Puts a number there.
fn put_number(out: &mut Vec<u8>, number: Number)
    requires room { vec_len out.old + length (number_bytes number) ≤ vec_capacity out.old }
    ensures bytes { out.new.items ≡ out.old.items ++ number_bytes number }
    ensures len { vec_len out.new ≡ vec_len out.old + length (number_bytes number) }
    ensures room { vec_capacity out.old ≤ vec_capacity out.new }
{
    match number {
        Number::Half(number) => put_bytes(out, &number.to_le_bytes()),
        Number::Word(number) => put_bytes(out, &number.to_le_bytes()),
        Number::Long(number) => put_bytes(out, &number.to_le_bytes()),
    }
}

/// Puts numbers there.
pub fn put_numbers(out: &mut Vec<u8>, numbers: &[Number])
    requires room { vec_len out.old + length (numbers_bytes numbers.now) ≤ vec_capacity out.old }
    ensures bytes { out.new.items ≡ out.old.items ++ numbers_bytes numbers.now }
    ensures len { vec_len out.new ≡ vec_len out.old + length (numbers_bytes numbers.now) }
    ensures room { vec_capacity out.old ≤ vec_capacity out.new }
{
    for number in numbers {
        put_number(out, *number);
    }
}
