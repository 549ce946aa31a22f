//! The making of a file in memory, with each call failing.

use super::*;
use msf_image::OpenFault;
use srv_edge::{Device, Limits, MemDevice};
use std::hash::RandomState;
use std::test::Fail;

// How many calls make a new file.
const CREATING: u32 = 10;

// The making of a file of which one call fails.
#[test]
fn creating_with_each_call_failing(rt: HostRuntime) -> Result<(), Fail> {
    let alloc = rt.alloc();
    for place in 0..CREATING {
        let device = MemDevice::new(alloc, Vec::new(alloc), vec![in alloc; place; 1]?);
        let keys = RandomState::new(&rt)?;
        let made = PdbFile::create(alloc, keys, device, 4096, [0; 16], 0, Limits::STANDARD);
        let Err((fault, device)) = made else {
            return Err("a call failed".into());
        };
        assert_eq!(rt; fault, OpenFault::DiskFault);
        assert_eq!(rt;
            (device.calls(), device.faults()),
            (place.wrapping_add(1), 1)
        );
    }
    Ok(())
}
