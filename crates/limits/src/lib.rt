// Document 01's limits, each said once; specs/Limits.antt has the same.
#![tactic(auto)]

pub const GREATEST_TOLERANCE: u64 = 100000000;

pub const GREATEST_LOT: u64 = 1000000;

pub const GREATEST_PRICE: u64 = 3000000;

pub const GREATEST_HAIRCUT: u64 = 9999;

pub const GREATEST_NOMINAL: u64 = 500000000;

pub const GREATEST_AMOUNT: u64 = 1000000000000;

pub const GREATEST_EXPOSURE: u64 = 10000000000000;

pub const GREATEST_NEXT: u64 = 1000000000;
