ghost use Rattle.std.specs.Prelude.{◌≡◌, [], ◌∷◌, None, IfOk, OnErr, OnOk, is_some, slice_set};
ghost use Rattle.qx_isolation.specs.Rows.{put_row, row_at};
ghost use Rattle.demo_managers.specs.Null as null;

use qx_machine::{Caller, Ocb, Opened};
use qx_rows::places;
use qx_types::{Coid, Errno, Limits, NoMemory};
use std::alloc::{AllocError, Global};
use std::marker::Model;

/// A user's open control blocks, from 1 to 256.
#[derive(Drop)]
pub struct Blocks {
    rows: Vec<Option<Ocb>>,
}

impl Model for Blocks {
    ghost use Rattle.demo_managers.specs.Null as null;

    ghost Value = { null.Blocks };

    ghost view = { λ b. b.rows.items };
}

impl Blocks {
    /// Nothing is open.
    pub fn new(alloc: Global) -> Result<Self, NoMemory>
        ensures none { IfOk result (λ blocks. blocks ≡ None ∷ []) }
    {
        Ok(Blocks {
            rows: places::empty(alloc)?,
        })
    }

    /// Whether there is a block of that number.
    pub fn has(&self, number: u16) -> bool
        ensures has { result ≡ is_some (row_at self.now number) }
    {
        places::row(self.rows.as_slice(), number as usize).is_some()
    }

    /// What a caller's connection with a block of that number has open; EBADF where there is no such block.
    pub fn opened(
        &self,
        caller: Caller,
        coid: Coid,
        number: u16,
        moment: u64,
    ) -> Result<Opened, Errno>
        ensures opened { result ≡ null.opened_at self.now caller coid number moment }
    {
        places::row(self.rows.as_slice(), number as usize).ok_or(Errno::EBADF)?;
        Ok(Opened {
            process: caller.process,
            thread: caller.thread,
            coid,
            is_asked: caller.is_asked,
            number,
            call: caller.call,
            moment,
        })
    }

    /// The number that a new block gets; ENFILE where there are too many.
    pub fn free_number(&self) -> Result<u16, Errno>
        ensures number { result ≡ null.free_number self.now }
    {
        let number = places::lowest_free(self.rows.as_slice(), 1);
        if number > Limits::BLOCKS {
            return Err(Errno::ENFILE);
        }
        Ok(number as u16)
    }

    /// Puts a block under a number. It may want memory.
    pub fn put(&mut self, number: u16, block: Ocb) -> Result<(), AllocError>
        ensures ok { OnOk result (self.new ≡ put_row self.old number block) }
        ensures err { OnErr result (self.new ≡ self.old) }
    {
        places::put(&mut self.rows, number as usize, block)
    }

    /// Takes away the block of a number.
    pub fn free(&mut self, number: u16)
        ensures freed { self.new ≡ slice_set self.old number None }
    {
        places::free(&mut self.rows, number as usize);
    }
}
