// Threads talk: send, receive and reply as cores on lent arrays, changed in place. Each refuses as the rules do, or does what its rule says.
#![tactic(auto)]

pub mod receive;
pub mod reply;
pub mod send;
