//! What the compiler is told that a proof knows.
#![tactic(auto)]

ghost use Rattle.std.specs.Prelude.{◌≡◌, IsSome, IsTrue, Some};
ghost use Rattle.std.specs.Borrow.{sem};
ghost use Rattle.std.specs.Option.Follows.{option_follows_value};

/// The compiler may count on a condition: for what comes where it does not hold nothing is compiled, no test that leads there
/// and no stop, which `unreachable!` leaves (Rust: `std::hint::assert_unchecked`).
pub fn assert_unchecked(holds: bool)
    requires holds { IsTrue holds }
    ensures holds { IsTrue holds }
{
    if !holds {
        // no index is within an empty array, so a proof allows a write there only where control never comes, and the
        // compiler takes it for that
        let mut none: [&mut u8; 0] = [];
        *none[0] = 0;
    }
}

/// The value that is there; whether it is, the program does not ask (Rust: `Option::unwrap_unchecked`).
pub fn unwrap_unchecked<T>(value: Option<T>) -> T
    requires there { IsSome value }
    ensures value { value ≡ Some result }
{
    match value {
        Some(value) => value,
        None => {
            assert_unchecked(false);
            unreachable!()
        }
    }
}

/// The value that is there, for writing; whether it is, the program does not ask.
pub fn as_mut_unchecked<T>(place: &mut Option<T>) -> &mut T
    requires there { IsSome place.old }
    ensures* writes_back { sem 𝓛 (option_follows_value T.row place.entry result) }
    ensures value { place.old ≡ Some result.now }
{
    match place {
        Some(value) => value,
        None => {
            assert_unchecked(false);
            unreachable!()
        }
    }
}
