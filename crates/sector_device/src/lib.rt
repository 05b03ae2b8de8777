//! Devices of sectors of 512 bytes, and what a stop of the host at any moment leaves of them.
#![tactic(auto)]

mod device;
mod file;
mod file_record;
mod fuse;
mod handing;
mod laws;
mod memory;
mod recorded;
mod refused;
mod replay;

pub use device::{DeviceFault, SectorDevice};
pub use file::FileDevice;
pub use file_record::FileRecord;
pub use handing::HandingDevice;
pub use laws::{
    file_keeps_the_disk_model, fuse_lets_so_many_pass, memory_keeps_the_disk_model,
    only_that_call_fails,
};
pub use memory::MemoryDevice;
pub use refused::Refused;
