// A pending set: which of its indexes is served.
#![tactic(auto)]

ghost use Rattle.std.specs.Prelude.{◌≡◌};
ghost use Rattle.rules.specs.Values.{device_known};
ghost use Rattle.rules.specs.Devices.{first_pending};

use rules::{Device, Pending};

// How many indexes the low word has, and how many the high one.
const LOW: u8 = 32;

const HIGH: u8 = 16;

// The first pending index, if the set has one.
pub fn first(s: Pending) -> Option<Device>
    ensures { result ≡ device_known (first_pending s) }
{
    let i = u32::trailing_zeros(s.low) as u8;
    if i < LOW {
        return Some(Device(i));
    }
    let j = u16::trailing_zeros(s.high) as u8;
    if j < HIGH {
        return Some(Device(LOW + j));
    }
    None
}
