//! A front, and the desk that it works at.

ghost use Rattle.std.specs.Prelude.{◌≡◌, IfOk, IsErrOf, map, None, OnErr, Some};
ghost use Rattle.qx_machine.specs.Machine.{World};
ghost use Rattle.qx_desk.specs.Desks.{arrived, by_of, desk_of, world_of, Comes, Leads, RanShort};
ghost use Rattle.qx_desk.specs.Fronts as fronts;
ghost use Rattle.qx_desk.specs.Fronts.{opened, start_states, turn};
ghost use Rattle.qx_desk.specs.declared.desk.InputFault.{InputFault};

use crate::taking::{By, Taking};
use qx_live::Session;
use qx_types::{Config, NoMemory, User};
use std::alloc::Global;
use thiserror::Error;

/// What a front keeps of one user, and what it does for an input of that user.
pub trait Front: Sized {
    type Input;

    type Output: Drop;

    // The front in definitions.
    ghost front: { fronts.Front Self Self.Input Self.Output };

    /// What is kept of a user at first.
    fn begin(alloc: Global, config: &Config, user: User) -> Result<Self, NoMemory>
        ensures { IfOk result (λ own. own ≡ front.start config.now user.0) };

    /// Takes steps for an input, and returns the user's answers. An error leaves whatever is to be kept of the user.
    fn on(
        &mut self,
        alloc: Global,
        taking: &mut Taking,
        input: &Self::Input,
    ) -> Result<Vec<Self::Output>, NoMemory>
        ensures answers { IfOk result (λ outputs. Comes (by_of taking.old) (world_of taking.old) (front.on (by_of taking.old).user.0 self.old input.now) (world_of taking.new) (record { state = self.new; outputs = outputs.items })) }
        ensures leads { OnErr result ((start : World) → Leads (by_of taking.old) start (world_of taking.old) → Leads (by_of taking.old) start (world_of taking.new)) };
}

/// Why an input has no answer. Memory was short.
#[derive(Clone, Copy, Debug, PartialEq, Eq, Error)]
pub enum InputFault {
    /// Nothing was done for it.
    #[error("out of memory: the input was not taken")]
    Refused,
    /// Some steps of its user may have been taken. The next input is taken with what the front left of that user.
    #[error("out of memory: the input was taken and has no answer")]
    Short,
}

/// A session, and what a front keeps of each user.
#[derive(Drop)]
pub struct Desk<F> {
    taking: Taking,
    own: Vec<F>,
}

impl<F: Front + Drop> Desk<F> {
    /// A desk over the world at boot.
    pub fn open(alloc: Global, config: Config) -> Result<Self, NoMemory>
        ensures { IfOk result (λ desk. desk_of desk ≡ opened F.front config) }
    {
        let own = begin_all(alloc, &config)?;
        let taking = Taking::new(Session::new(alloc, config)?);
        Ok(Desk { taking, own })
    }
}

/// What is kept of each user at first.
fn begin_all<F: Front + Drop>(alloc: Global, config: &Config) -> Result<Vec<F>, NoMemory>
    ensures { IfOk result (λ own. map Some own.items ≡ start_states F.front config.now 1 config.now.users) }
{
    let mut own = Vec::new(alloc);
    'users: for number in 0..config.user_count() {
        own.push(F::begin(alloc, config, User(number as u8 + 1))?)?;
    }
    Ok(own)
}

impl<F: Front> Desk<F> {
    /// A user's input is answered by steps of that user and by what is kept of that user alone. Where memory is short, no other
    /// user's world or answers depend on it.
    pub fn take(
        &mut self,
        alloc: Global,
        by: By,
        input: &F::Input,
    ) -> Result<Vec<F::Output>, InputFault>
        ensures answers { IfOk result (λ outputs. turn F.front (desk_of self.old) (arrived by input.now None) ≡ record { desk = desk_of self.new; outputs = outputs.items }) }
        ensures refused { IsErrOf result InputFault.Refused → desk_of self.new ≡ desk_of self.old }
        ensures short { IsErrOf result InputFault.Short → RanShort F.front (desk_of self.old) by input.now (desk_of self.new) }
    {
        if self.taking.begin(by).is_err() {
            return Err(InputFault::Refused);
        }
        let Some(place) = usize::from(by.user.0).checked_sub(1) else {
            return Ok(Vec::new(alloc));
        };
        let Some(own) = self.own.get_mut(place) else {
            return Ok(Vec::new(alloc));
        };
        let Ok(outputs) = own.on(alloc, &mut self.taking, input) else {
            return Err(InputFault::Short);
        };
        Ok(outputs)
    }
}
