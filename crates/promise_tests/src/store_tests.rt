// The command `store` over a disk in memory: its refusals, and what a crash leaves where a call of the disk fails.
use crate::calls::{FRAMES, HEAD, NoDisk, OPEN, REQUEST, comes_to, joined, one, source};
use record_disk::{Disk, MemoryDisk};
use record_store::{GATE, RecordStore};
use std::alloc::Global;
use std::process::Abort;
use std::thread::Threads;

// The text of a ride of sixty ticks and three changes, and how many entries there are then.
const THREE: &str =
    "2 full\n22 off K7 car_door 5.11.2\n42 full\nticks 60 on 39 changes 3\nstored 3\n";

const SIX: &str =
    "2 full\n22 off K7 car_door 5.11.2\n42 full\nticks 60 on 39 changes 3\nstored 6\n";

const ALL: &str =
    "2 full\n22 off K7 car_door 5.11.2\n42 full\nticks 60 on 39 changes 3\nstored 10000\n";

const DISK: &str = "refused: disk\n";

// A disk whose write and whose sync of these numbers fail.
fn open<R: Abort>(rt: &R, alloc: Global, room: u16, write: u32, sync: u32) -> MemoryDisk {
    let writes = one(rt, alloc, write);
    let syncs = one(rt, alloc, sync);
    let disk = MemoryDisk::open(alloc, u32::from(room), Vec::new(alloc), writes, syncs);
    disk.expect(rt, "memory")
}

// A ride of sixty ticks, in which the car door opens and closes.
fn ride<R: Abort>(rt: &R, alloc: Global) -> Vec<u8> {
    let opens = &[HEAD, FRAMES, REQUEST, "t 20\n", FRAMES, OPEN, "t 20\n"];
    let mut text = joined(rt, alloc, opens);
    let closes = joined(rt, alloc, &[FRAMES, REQUEST, "t 20\ne\n"]);
    text.extend_from_slice(&closes).expect(rt, "memory");
    text
}

// Stores the changes of the ride: it ends with this status, and has written this. Answers how many ticks were run.
fn stores<R: Threads + Abort, D: Disk>(
    rt: &R,
    alloc: Global,
    disk: &mut D,
    status: u8,
    written: &str,
) -> u32 {
    let mut source = source(rt, alloc, &ride(rt, alloc), 0);
    comes_to(rt, alloc, &["store"], &mut source, disk, status, written)
}

// How many entries a record has.
fn count<D: Disk>(disk: &mut D) -> Option<u32> {
    match RecordStore::open(disk) {
        Ok(store) => Some(store.len()),
        Err(_) => None,
    }
}

// A write or a sync fails: so many ticks were run, and a crash leaves so many entries, where a torn byte becomes this one.
fn leaves<R: Threads + Abort>(
    rt: &R,
    alloc: Global,
    write: u32,
    sync: u32,
    fill: u8,
) -> (u32, Option<u32>) {
    let mut disk = open(rt, alloc, 1_000, write, sync);
    let ticks = stores(rt, alloc, &mut disk, 12, DISK);
    (ticks, count(&mut disk.after_crash(fill)))
}

// A change is stored where a crash makes torn bytes those of a gate, or it is not, and one fewer where it makes them 0.
fn leaves_both<R: Threads + Abort>(rt: &R, alloc: Global, write: u32, sync: u32, left: [u32; 2]) {
    let zeros = leaves(rt, alloc, write, sync, 0x00);
    let gates = leaves(rt, alloc, write, sync, GATE);
    let holds = zeros == (60, Some(left[0])) && gates == (60, Some(left[1]));
    assert!(rt; holds, "{write} {sync}");
}

// The first sync is that of the opening, so nothing is run. Each change makes a write and a sync of its entry, and a write and a sync of
// its gate.
#[test]
fn each_call_of_the_disk_fails_in_turn(rt: HostRuntime) {
    let alloc = rt.alloc();
    assert!(rt; leaves(&rt, alloc, 0, 1, GATE) == (0, Some(0)));
    for stored in 0..3u32 {
        let without = [stored, stored];
        let perhaps = [stored, stored + 1];
        leaves_both(&rt, alloc, 2 * stored + 1, 0, without);
        leaves_both(&rt, alloc, 0, 2 * stored + 2, without);
        leaves_both(&rt, alloc, 2 * stored + 2, 0, perhaps);
        leaves_both(&rt, alloc, 0, 2 * stored + 3, perhaps);
    }
}

#[test]
fn a_ride_is_stored_twice(rt: HostRuntime) {
    let alloc = rt.alloc();
    let mut disk = open(&rt, alloc, 1_000, 0, 0);
    stores(&rt, alloc, &mut disk, 0, THREE);
    stores(&rt, alloc, &mut disk, 0, SIX);
    assert!(rt; count(&mut disk.after_crash(GATE)) == Some(6));
}

// A gate without an entry.
fn foreign<R: Abort>(rt: &R, alloc: Global) -> MemoryDisk {
    let mut disk = open(rt, alloc, 1_000, 0, 0);
    let _ = disk.write_at(31, &[GATE]);
    disk
}

// A gate without an entry is no record, and a disk that fails at each call has none.
#[test]
fn a_disk_without_a_record_is_refused(rt: HostRuntime) {
    let alloc = rt.alloc();
    let mut gate = foreign(&rt, alloc);
    assert!(rt; stores(&rt, alloc, &mut gate, 13, "refused: record 1\n") == 0);
    let mut none = NoDisk { faults: 0 };
    assert!(rt; stores(&rt, alloc, &mut none, 12, DISK) == 0);
}

// A record with so many entries: power comes at tick 1 in each.
fn filled<R: Abort>(rt: &R, alloc: Global, entries: u16) -> MemoryDisk {
    let mut disk = open(rt, alloc, 30_000, 0, 0);
    for i in 0..entries.min(10_000) {
        let number = i.to_le_bytes();
        let slot = [
            1, 0, 0, 0, 1, 0, 0, 0, number[0], number[1], 0, 0, 0, 0, 0, GATE,
        ];
        let _ = disk.write_at(16 * u32::from(i), &slot);
    }
    disk
}

// Three changes are one too many, and then just enough.
#[test]
fn a_full_record_takes_no_ride(rt: HostRuntime) {
    let alloc = rt.alloc();
    let mut full = filled(&rt, alloc, 9_998);
    assert!(rt; stores(&rt, alloc, &mut full, 14, "refused: full\n") == 60);
    assert!(rt; count(&mut full) == Some(9_998));
    let mut room = filled(&rt, alloc, 9_997);
    stores(&rt, alloc, &mut room, 0, ALL);
}
