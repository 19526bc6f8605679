//! Paths of nodes, found by walking up to the top directory.
ghost use Rattle.std.specs.Prelude.{◌≡◌, IfOk, option_map};
ghost use Rattle.std.specs.Option.{option_copied};
ghost use Rattle.qx_fuse_tables.specs.Nodes.{behind, named, path_from};

use crate::change::{Node, TOP};
use qx_rows::places;
use std::alloc::{AllocError, Global};

/// The node of a number, unless its name was removed.
fn named(places: &[Option<Node>], number: u64) -> Option<&Node>
    ensures { option_copied result ≡ named places.now number }
{
    let node = places::row(places, number as usize)?;
    if node.is_named { Some(node) } else { None }
}

/// `/` and a name behind a path.
pub(crate) fn with_name(mut path: Vec<u8>, name: &[u8]) -> Result<Vec<u8>, AllocError>
    ensures { IfOk result (λ longer. longer.items ≡ behind path.items name.now) }
{
    path.push(b'/')?;
    path.extend_from_slice(name)?;
    Ok(path)
}

/// The path of a node that lies at most so many names below the top directory, behind that directory's path.
#[tactic(auto, using(crate::proofs::PathLemmas::path_top, crate::proofs::PathLemmas::path_none, crate::proofs::PathLemmas::path_nowhere, crate::proofs::PathLemmas::path_below))]
pub(crate) fn path_from(
    places: &[Option<Node>],
    alloc: Global,
    top: &[u8],
    number: u64,
    names: usize,
) -> Result<Option<Vec<u8>>, AllocError>
    ensures { IfOk result (λ path. option_map (λ bytes. bytes.items) path ≡ path_from names places.now top.now number) }
{
    if number == TOP {
        return Ok(Some(Vec::from_slice(alloc, top)?));
    }
    if names == 0 {
        return Ok(None);
    }
    let Some(node) = named(places, number) else {
        return Ok(None);
    };
    match path_from(places, alloc, top, node.directory, names - 1)? {
        Some(path) => Ok(Some(with_name(path, node.name.as_slice())?)),
        None => Ok(None),
    }
}
