//! What the managers keep for a user, as their tables of functions see it.

use crate::resources::Resources;
use crate::tables::Tables;
use qx_resmgr::State;
use std::marker::Model;

/// A user's resources as the machine has them: what the managers' tables of functions work on. It stands in contracts alone.
pub struct Told;

impl Model for Told {
    ghost use Rattle.std.specs.Coded.{codes};
    ghost use Rattle.std.specs.Prelude.{[]};
    ghost use Rattle.qx_machine.specs.Mounting.{new_resources};
    ghost use Rattle.qx_machine.specs.Resources as machine;
    ghost use Rattle.qx_names.specs.Paths.{names_code};
    ghost use Rattle.qx_types.specs.UserLimits.{default_limits};

    ghost Value = { machine.Resources };

    ghost coded = { Prim.hlevel (codes, names_code) };

    ghost view = { λ _. new_resources default_limits 0 [] };
}

impl State<Tables, Told> for Resources {
    ghost use Rattle.qx_resources.specs.State as state;

    ghost told = { state.told };

    ghost shared = { state.shared };

    ghost fits = { state.HasUser };

    ghost same = { state.SameUser };
}
