//! Disks: files of bytes that can be written, cut and synced, and what a crash leaves of them.
//!
//! A disk tells which calls changed it, or what has become of it, where it can: one in memory does, a
//! real file does not. What a read gives and what a crash at any moment may leave are definitions over
//! these calls: between two syncs that succeed any bytes may stand from the first place that was written
//! to the last, the length is any from the least to the greatest that the disk had, and all else
//! stays. Each disk also has a count of
//! faults that never falls; a call fails only where it rose in that call.
//!
//! So each clause of the trait is one equation. "At each moment" is said of a disk that tells its calls:
//! [`MemoryDisk`] keeps the list as data, since nothing else could tell of moments that have passed. A
//! [`CalmDisk`], on which most logs are, keeps its bytes and four numbers and tells its state; of it such a
//! claim says the last moment alone.
//!
//! What a crash may leave is told by the first and the last place written since the last sync, and the least
//! and the greatest length. So between two writes that lie apart, and past a cut, any bytes may stand, which
//! no disk does that keeps what was not written; that what such a disk leaves is among these images is a law
//! (`ranges_leave_no_more`). A write or a cut that failed leaves what a read gives, and counts for what a
//! crash may leave: a write as one of its range, a cut as a length that the file may have. A sync that failed
//! changes nothing.
//!
//! The room of a disk is two numbers, of calls and of bytes, and to make room is a call of its own that isn't
//! counted, so no other call takes memory. What [`MemoryDisk::crashed`] leaves is told by ranges, so it is
//! exact, and one of the images by the law.
#![tactic(auto)]

mod bytes;
mod calm_disk;
mod crashed;
mod disk;
mod kept;
mod laws;
mod memory_disk;

pub use calm_disk::CalmDisk;
pub use disk::Disk;
pub use laws::{
    content_is_an_image, filled_is_an_image, parts_leave_no_more, ranges_leave_no_more,
    syncs_leave_the_content,
};
pub use memory_disk::MemoryDisk;
