// The W of directives, by 01's numbers; any other does nothing.
pub const VERSION: u32 = 1;

pub const PLUGIN: u32 = 2;

pub const INCLUDE: u32 = 3;

pub const DELETE_NODE: u32 = 4;

pub const DELETE_PROPERTY: u32 = 5;
