//! Makes a device of a file and syncs it twice, to be run with a sync of the file made to fail: none behind it may succeed.
#![tactic(auto)]

use sector_device::{DeviceFault, FileDevice, SectorDevice};
use std::path::Path;
use std::{fs, io};

const PATH: &str = "syncs.save";

fn main(rt: HostRuntime) -> io::Result<()> {
    let made = FileDevice::create(&rt, Path::new(PATH), 3);
    let Ok(mut device) = made else {
        println!(rt; "not made")?;
        return Ok(());
    };
    for _ in 0..2 {
        println!(rt; "{}", answer_of(written(&mut device)))?;
    }
    fs::remove_file(&rt, PATH)
}

fn written<D: SectorDevice>(device: &mut D) -> Result<(), DeviceFault> {
    if device.count() > 1 {
        device.write(1, &[7; 512])?;
    }
    device.sync()
}

fn answer_of(synced: Result<(), DeviceFault>) -> &'static str {
    match synced {
        Ok(()) => "done",
        Err(_) => "device failed",
    }
}
