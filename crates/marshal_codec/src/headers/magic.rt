//! The magic numbers that begin marshalled values (`intext.h`).

pub const SMALL_MAGIC: u32 = 0x8495_a6be;

pub const BIG_MAGIC: u32 = 0x8495_a6bf;

pub const COMPRESSED_MAGIC: u32 = 0x8495_a6bd;
