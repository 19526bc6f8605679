//! Which conditions are wanted, have come to hold, and are told.

ghost use Rattle.std.specs.Prelude.{◌≡◌};
ghost use Rattle.qx_machine.specs.Events as machine;

use crate::changes::Change;
use bitflags::Flags;
use qx_machine::{Conditions, Event, Pulse};
use qx_types::{Conds, PulseValue};

/// The wanted among some conditions.
pub(crate) fn wanted_of(wanted: Conds, holding: Conditions) -> Conditions
    ensures { result ≡ machine.wanted_of wanted holding }
{
    Conditions {
        input: wanted.contains(Conds::INPUT) && holding.input,
        output: wanted.contains(Conds::OUTPUT) && holding.output,
    }
}

/// The conditions that hold and did not before.
pub(crate) fn come_to_hold(change: Change) -> Conditions
    ensures { result ≡ machine.come_to_hold change.before change.after }
{
    Conditions {
        input: change.after.input && !change.before.input,
        output: change.after.output && !change.before.output,
    }
}

/// Whether one of the conditions holds.
pub(crate) fn is_any(conditions: Conditions) -> bool
    ensures { result ≡ machine.is_any conditions }
{
    conditions.input || conditions.output
}

/// The status that tells of these conditions.
pub(crate) fn status_of(conditions: Conditions) -> u64
    ensures { result ≡ machine.wanted_status conditions }
{
    let input: u64 = if conditions.input { 1 } else { 0 };
    let output: u64 = if conditions.output { 2 } else { 0 };
    input + output
}

/// The value of the pulse of an event where these conditions hold.
pub(crate) fn pulse_value(event: &Event, holding: Conditions) -> u64
    ensures { result ≡ (machine.pulse_of event.now holding).value }
{
    let told = wanted_of(event.conditions, holding);
    number_of(event.value) | bits_beside(event.value, told)
}

/// The value as a number.
pub(crate) fn number_of(value: PulseValue) -> u64
    ensures { result ≡ machine.number_of value }
{
    match value {
        PulseValue::Bits32(value) => u64::from(value),
        PulseValue::Bits64(value) => value,
    }
}

/// What tells of conditions beside a value.
fn bits_beside(value: PulseValue, told: Conditions) -> u64
    ensures { result ≡ machine.bits_beside value told }
{
    let (input, output) = match value {
        PulseValue::Bits32(_) => (Pulse::INPUT, Pulse::OUTPUT),
        PulseValue::Bits64(_) => (Pulse::INPUT_64, Pulse::OUTPUT_64),
    };
    let input = if told.input { input } else { 0 };
    let output = if told.output { output } else { 0 };
    input + output
}
