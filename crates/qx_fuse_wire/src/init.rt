ghost use Rattle.std.specs.Prelude.{◌≡◌, IfSome};
ghost use Rattle.qx_fuse_wire.specs.Init.{agreed, init_reply};
ghost use Rattle.qx_fuse_wire.specs.Replies.{bytes_read};

use crate::body::Body;
use crate::reply::{Agreed, Failure, Reply};

/// What the mount wants: at most that readahead, of these flags those that the kernel offers, and the other values as they are.
#[derive(Clone, Copy, Debug)]
pub struct Wanted {
    pub readahead: u32,
    pub flags: u32,
    pub more_flags: u32,
    pub background: u16,
    pub congestion: u16,
    pub write_size: u32,
    pub time_step: u32,
    pub pages: u16,
}

/// What is answered to an INIT, and nothing to another request. A kernel of an older protocol gets EPROTO. One of a newer
/// protocol is told 7.31, with nothing agreed yet, and asks again.
pub fn init_reply(body: &Body<'_>, wanted: &Wanted) -> Option<Reply<'static>>
    ensures reply { result ≡ init_reply body.now wanted.now }
    ensures short { IfSome result (λ reply. bytes_read reply ≡ 0) }
{
    match body {
        Body::Offer {
            readahead,
            flags,
            more_flags,
            ..
        } => Some(Reply::Agreed(agreed(*readahead, *flags, *more_flags, wanted))),
        Body::OtherVersion { major, .. } if *major > 7 => {
            let nothing = Wanted {
                readahead: 0,
                flags: 0,
                more_flags: 0,
                background: 0,
                congestion: 0,
                write_size: 0,
                time_step: 0,
                pages: 0,
            };
            Some(Reply::Agreed(agreed(0, 0, 0, &nothing)))
        }
        Body::OtherVersion { .. } => Some(Reply::Failed(Failure::Protocol)),
        _ => None,
    }
}

/// What is agreed with a kernel that offers this.
fn agreed(readahead: u32, flags: u32, more_flags: u32, wanted: &Wanted) -> Agreed
    ensures agreed { result ≡ agreed readahead flags more_flags wanted.now }
{
    Agreed {
        minor: 31,
        readahead: readahead.min(wanted.readahead),
        flags: flags & wanted.flags,
        background: wanted.background,
        congestion: wanted.congestion,
        write_size: wanted.write_size,
        time_step: wanted.time_step,
        pages: wanted.pages,
        more_flags: more_flags & wanted.more_flags,
    }
}
