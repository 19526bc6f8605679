//! What bytes mean as a request.
ghost use Rattle.std.specs.Prelude.{◌≡◌};
ghost use Rattle.std.specs.Option.{option_map};
ghost use Rattle.qx_fuse_wire.specs.Forms.{read};
ghost use Rattle.qx_fuse_wire.specs.Table.{caller_form, caller_made};
ghost use Rattle.qx_fuse_wire.specs.Meaning.{body_meaning, header_at, known_or_malformed, meaning};

use crate::bodies::{
    access_at, batch_forget_at, create_at, ended, flush_at, forget_at, get_attributes_at, init_at,
    interrupt_at, link_at, lookup_at, make_directory_at, make_node_at, open_at, poll_at, read_at,
    release_at, remove_directory_at, rename_2_at, rename_at, seek_at, set_attributes_at,
    symbolic_link_at, sync_at, unlink_at, write_at,
};
use crate::body::{Body, Header, Meaning, Opened, Reads};
use crate::fields::{behind, u16_at, u32_at, u64_at};

/// A header, and what stands behind it.
#[tactic(auto, unfolding(crate::specs::Meaning::header_at))]
pub fn header_at(bytes: &[u8]) -> Option<(Header, &[u8])>
    ensures { option_map (λ x. (x.0, x.1.now)) result ≡ header_at bytes.now }
{
    let (length, rest) = u32_at(bytes)?;
    let (opcode, rest) = u32_at(rest)?;
    let (unique, rest) = u64_at(rest)?;
    let (node, rest) = u64_at(rest)?;
    caller_at(length, opcode, unique, node, rest)
}

/// The same from the caller on.
fn caller_at(
    length: u32,
    opcode: u32,
    unique: u64,
    node: u64,
    bytes: &[u8],
) -> Option<(Header, &[u8])>
    ensures { option_map (λ x. (x.0, x.1.now)) result ≡ read caller_form (caller_made length opcode unique node) bytes.now }
{
    let (user, rest) = u32_at(bytes)?;
    let (group, rest) = u32_at(rest)?;
    let (process, rest) = u32_at(rest)?;
    let (extensions, rest) = u16_at(rest)?;
    let rest = behind(2, rest)?;
    let header = Header {
        length,
        opcode,
        unique,
        node,
        user,
        group,
        process,
        extensions,
    };
    Some((header, rest))
}

/// The body that was read, or that it could not be read.
fn known<'a>(header: Header, body: Option<Body<'a>>) -> Meaning<'a>
    ensures { result ≡ known_or_malformed header body.entry }
{
    match body {
        None => Meaning::Malformed(header),
        Some(body) => Meaning::Known(header, body),
    }
}

/// What a body means behind that header.
#[tactic(auto, unfolding(crate::specs::Meaning::body_meaning))]
fn body_meaning(header: Header, body: &[u8]) -> Meaning<'_>
    ensures { result ≡ body_meaning header body.now }
{
    match header.opcode {
        1 => known(header, lookup_at(body)),
        2 => known(header, forget_at(body)),
        3 => known(header, get_attributes_at(body)),
        4 => known(header, set_attributes_at(body)),
        5 => known(header, ended(body, Body::ReadLink)),
        6 => known(header, symbolic_link_at(body)),
        8 => known(header, make_node_at(body)),
        9 => known(header, make_directory_at(body)),
        10 => known(header, unlink_at(body)),
        11 => known(header, remove_directory_at(body)),
        12 => known(header, rename_at(body)),
        13 => known(header, link_at(body)),
        14 => known(header, open_at(Opened::File, body)),
        15 => known(header, read_at(Reads::Bytes, body)),
        16 => known(header, write_at(body)),
        17 => known(header, ended(body, Body::FileSystem)),
        18 => known(header, release_at(Opened::File, body)),
        20 => known(header, sync_at(Opened::File, body)),
        25 => known(header, flush_at(body)),
        26 => known(header, init_at(body)),
        27 => known(header, open_at(Opened::Directory, body)),
        28 => known(header, read_at(Reads::Names, body)),
        29 => known(header, release_at(Opened::Directory, body)),
        30 => known(header, sync_at(Opened::Directory, body)),
        34 => known(header, access_at(body)),
        35 => known(header, create_at(body)),
        36 => known(header, interrupt_at(body)),
        38 => known(header, ended(body, Body::Destroy)),
        40 => known(header, poll_at(body)),
        42 => known(header, batch_forget_at(body)),
        44 => known(header, read_at(Reads::Entries, body)),
        45 => known(header, rename_2_at(body)),
        46 => known(header, seek_at(body)),
        _ => Meaning::Unknown(header),
    }
}

/// What bytes mean, as one read of the device gives them. Names and bytes of the request stand in them.
#[tactic(auto, unfolding(crate::specs::Meaning::meaning))]
pub fn meaning(bytes: &[u8]) -> Meaning<'_>
    ensures meaning { result ≡ meaning bytes.now }
{
    let Some((header, rest)) = header_at(bytes) else {
        return Meaning::Short;
    };
    let behind_body = 8 * usize::from(header.extensions);
    if header.length as usize != bytes.len() || rest.len() < behind_body {
        return Meaning::Malformed(header);
    }
    body_meaning(header, &rest[..rest.len() - behind_body])
}
