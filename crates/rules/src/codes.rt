// The codes of document 01 ("When the nucleus says no"), each by one name. They are numbers, and no enum, since C is handed them, and answers in an image
// have them. An event is refused by a `Refusal`.
pub const DONE: u8 = 0;

// An event: nobody runs who could call, the number is none (or the index no device's), it is the caller's own, it is not live, its thread awaits no reply of
// the caller's, and no place is empty.
pub const IDLE: u8 = 1;

pub const NO_NUMBER: u8 = 2;

pub const OWN_NUMBER: u8 = 3;

pub const NOT_LIVE: u8 = 4;

pub const NOT_AWAITING: u8 = 5;

pub const FULL: u8 = 6;

// A save: the buffer is shorter than the image.
pub const SHORT: u8 = 7;

// A load: too short, or a length field that is not the length; an unknown edition; the image of no consistent state.
pub const WRONG_LENGTH: u8 = 8;

pub const UNKNOWN_EDITION: u8 = 9;

pub const FOREIGN: u8 = 10;

// A log: no room for a record, a log that is too long, or a position past its end; a record cut short; a kind that is not known.
pub const NO_ROOM: u8 = 11;

pub const CUT_SHORT: u8 = 12;

pub const UNKNOWN_KIND: u8 = 13;

// The state given is not consistent.
pub const INCONSISTENT: u8 = 14;

// An answer to those whose receiver has ended. Every other answer has DONE.
pub const ENDED: u8 = 16;
