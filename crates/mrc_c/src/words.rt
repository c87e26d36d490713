// What a field is multiplied by to stand from a byte of a machine word on, the lowest byte being the first.
pub const FROM_1: u64 = 256;

pub const FROM_2: u64 = 65536;

pub const FROM_3: u64 = 16777216;

pub const FROM_4: u64 = 4294967296;

pub const FROM_5: u64 = 1099511627776;

pub const FROM_6: u64 = 281474976710656;
