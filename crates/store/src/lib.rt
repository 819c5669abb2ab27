// The message store over lent bytes: its sizes, and the types that its definitions in specs/ speak of. The code is in
// `store_access`, `store_check` and `store_change`, the laws of its chains are in `store_laws`.
#![tactic(auto)]

// The records of a store, the head included.
pub const RECORDS: usize = 240;

// The bytes of a store.
pub const LENGTH: usize = RECORDS * record::SIZE;

// Chains followed to their ends: none met a record twice, a record that is not there, or one that does not belong on it.
#[derive(Clone, Copy)]
pub struct Walked {
    // The records that chains passed.
    pub passed: [bool; RECORDS],
    // How many records the last chain has.
    // Kept: it counts the last chain alone, and is no length of `passed`.
    pub count: usize,
}

// What one pass over a sound store finds.
#[derive(Clone, Copy)]
pub struct Survey {
    // The group's size that the head gives.
    pub n: usize,
    // The free records.
    pub free: usize,
}
