//! Tests of `qx_fuse_wire` through its public calls: what requests mean and the bytes of replies.
//!
//! - `requests.rt`: requests of a kernel, malformed ones, fronts
//! - `replies.rt`: replies, names of directories, notifications, the answer to INIT
#![tactic(auto)]

#[cfg(test)]
mod replies;
#[cfg(test)]
mod requests;
