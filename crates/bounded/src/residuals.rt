// The tree's lanes with their residual capacities: the low half of residual[v] is what the lane between v and its parent can lose, the high half what it
// can still take. One addition changes both.

// What a lane above its ceiling can still take; it can lose what is above the ceiling.
pub const VAST: u32 = 268_435_456;

// A pair from here on can take half of that or more.
const ABOVE: u64 = 576_460_752_303_423_488;

pub fn pair(lose: u32, take: u32) -> u64 {
    (lose as u64) | ((take as u64) << 32)
}

// One half of a pair: what the lane can lose (shift 0) or take (shift 32).
// Stays: the shift is a number and no enum: the walks turn it over by 32 ^ shift, and each turn uses it as it is.
pub fn half(pair: u64, shift: u32) -> u32 {
    ((pair >> shift % 64) % 4_294_967_296) as u32
}

// Is the lane of this pair above its ceiling, or just on it, coming from above?
pub fn above(pair: u64) -> bool {
    ABOVE <= pair
}

// What is added to the pair of a lane that loses an amount.
pub fn loss(amount: u32) -> u64 {
    ((amount as u64) << 32).wrapping_sub(amount as u64)
}

// What is added to the pair of a lane that gains an amount.
pub fn gain(amount: u32) -> u64 {
    0u64.wrapping_sub(loss(amount))
}
