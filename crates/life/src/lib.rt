// A thread's life beside its talk: it is created and ended, waits for the clock or at a device, and is moved on by ticks, interrupts and the ends of slices.
// The events are cores on lent arrays, changed in place. Each refuses as the rules do, or does what its rule says.
#![tactic(auto)]

pub mod clock;
pub mod create;
pub mod device;
pub mod end;
