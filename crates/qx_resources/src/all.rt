//! What the managers keep for all users.

ghost use Rattle.std.specs.Prelude.{◌≡◌, ◌∷◌, None, IfOk};
ghost use Rattle.std.specs.Option.{option_copied, option_copied_mut};
ghost use Rattle.std.specs.Borrow.{sem};
ghost use Rattle.qx_isolation.specs.Rows.{row_at};
ghost use Rattle.qx_resources.specs.Boot.{boot_resources};

use crate::resources::Resources;
use qx_rows::places;
use qx_types::{Config, NoMemory, User};
use std::alloc::Global;
use std::marker::Model;

/// What the managers keep for all users: a place for each number, from 1.
#[derive(Drop)]
pub struct AllResources {
    rows: Vec<Option<Resources>>,
}

impl Model for AllResources {
    ghost use Rattle.std.specs.Coded.{codes};
    ghost use Rattle.std.specs.Prelude.{List, Option};
    ghost use Rattle.qx_names.specs.Paths.{names_code};
    ghost use Rattle.qx_resources.specs.State.{Kept};

    ghost Value = { List (Option Kept) };

    ghost coded = { Prim.hlevel (codes, names_code) };

    ghost view = { λ a. a.rows.items };
}

impl AllResources {
    ghost use Rattle.qx_resources.specs.Lends.{lends_resources};

    /// The resources of the users of a configuration, at boot.
    pub fn boot(alloc: Global, config: &Config) -> Result<Self, NoMemory>
        ensures { IfOk result (λ all. all ≡ None ∷ boot_resources config.now 1 config.now.users) }
    {
        let mut rows = places::empty(alloc)?;
        for number in 0..config.user_count() {
            rows.push(Some(Resources::boot(alloc, config, User(number as u8 + 1))?))?;
        }
        Ok(AllResources { rows })
    }

    /// A user's resources; none where there is no such user.
    pub fn user(&self, user: User) -> Option<&Resources>
        ensures row { option_copied result ≡ row_at self.now user.0 }
    {
        places::row(self.rows.as_slice(), user.0 as usize)
    }

    /// A user's resources, for writing; none where there is no such user.
    pub fn user_mut(&mut self, user: User) -> Option<&mut Resources>
        ensures* writes_back { sem 𝓛 (lends_resources self.entry user.0 result) }
        ensures row { option_copied_mut result ≡ row_at self.old user.0 }
    {
        self.rows.get_mut(user.0 as usize)?.as_mut()
    }
}
