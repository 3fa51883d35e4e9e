// A disk in memory, and a record over it: what a read gives, and what a crash leaves.
use event_record::Change;
use lift_base::Kind;
use record_disk::{Disk, MemoryDisk};
use record_store::{GATE, RecordStore};
use std::alloc::Global;
use std::process::Abort;

// The number of a call that fails.
fn one<R: Abort>(rt: &R, alloc: Global, number: u32) -> Vec<u32> {
    Vec::from_slice(alloc, &[number]).expect(rt, "memory")
}

// A disk whose write and whose sync of these numbers fail.
fn open<R: Abort>(rt: &R, alloc: Global, write: u32, sync: u32) -> MemoryDisk {
    let writes = one(rt, alloc, write);
    let syncs = one(rt, alloc, sync);
    MemoryDisk::open(alloc, 100, Vec::new(alloc), writes, syncs).expect(rt, "memory")
}

fn read_four<D: Disk>(disk: &mut D) -> [u8; 4] {
    let mut buf = [9; 4];
    let _ = disk.read(4, &mut buf);
    buf
}

// A write, a sync, and a write over part of it.
fn write_twice<D: Disk>(disk: &mut D) {
    let _ = disk.write_at(4, &[1, 2]);
    let _ = disk.sync();
    let _ = disk.write_at(5, &[7, 8]);
}

// What a read gives behind these calls, and after a crash that puts A5 wherever it may put any byte.
fn written_twice(mut disk: MemoryDisk) -> ([u8; 4], [u8; 4]) {
    write_twice(&mut disk);
    let read = read_four(&mut disk);
    let mut after = disk.after_crash(0xA5);
    (read, read_four(&mut after))
}

#[test]
fn a_crash_leaves_what_was_synced(rt: HostRuntime) {
    let all = written_twice(open(&rt, rt.alloc(), 0, 0));
    // A write that fails may have been made in part.
    let no_write = written_twice(open(&rt, rt.alloc(), 2, 0));
    // Without a sync nothing is on the disk for sure.
    let no_sync = written_twice(open(&rt, rt.alloc(), 0, 1));
    assert!(rt; all == ([1, 7, 8, 0], [1, 0xA5, 0xA5, 0]));
    assert!(rt; no_write == ([1, 2, 0, 0], [1, 0xA5, 0xA5, 0]));
    assert!(rt; no_sync == ([1, 7, 8, 0], [0xA5, 0xA5, 0xA5, 0]));
}

const DOWN: Change = Change {
    tick: 200_000,
    power: Kind::Down,
    alarm: true,
    reason: 2,
    detail: 3,
};

// Appends a change twice, as far as no call fails.
fn append_twice<D: Disk>(disk: &mut D) {
    if let Ok(mut store) = RecordStore::open(disk) {
        if store.append(disk, &DOWN).is_ok() {
            let _ = store.append(disk, &DOWN);
        }
    }
}

// How many entries there are, and the first.
fn first_of<D: Disk>(disk: &mut D) -> Option<(u32, Change)> {
    let store = RecordStore::open(disk).ok()?;
    if store.len() == 0 {
        return None;
    }
    let change = store.get(disk, 0).ok()?;
    Some((store.len(), change))
}

#[test]
fn entries_are_read_after_a_crash(rt: HostRuntime) {
    let mut disk = open(&rt, rt.alloc(), 0, 0);
    append_twice(&mut disk);
    let mut after = disk.after_crash(GATE);
    assert!(rt; first_of(&mut after) == Some((2, DOWN)));
}
