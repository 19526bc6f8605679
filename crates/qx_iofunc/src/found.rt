use qx_machine::Attribute;
use qx_names::Spot;

/// What an open of a path opens, an inode that is there or one that is to be made at a spot, and the number of the open control
/// block that it will have.
#[derive(Clone, Copy)]
pub enum Lookup<'a> {
    Found { inode: u32, block: u16 },
    Missing { at: Spot<'a>, new: New, block: u16 },
}

/// What is to be made: the number of its inode, and the attribute of its directory.
#[derive(Clone, Copy)]
pub struct New {
    pub inode: u32,
    pub parent: Attribute,
}

/// What an open gives: the number of the open control block, the inode, and whether that was made.
#[derive(Clone, Copy)]
pub struct Opening {
    pub number: u16,
    pub inode: u32,
    pub is_new: bool,
}

/// What a close took away: an open control block of that inode, and the inode with it or not.
#[derive(Clone, Copy)]
pub struct Closed {
    pub inode: u32,
    pub is_gone: bool,
}
