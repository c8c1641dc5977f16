//! Pieces of samples in a lent room.
use samples::{Refusal, is_high, roll};
use std::test::Fail;

#[test]
fn equal_samples_are_one_run(rt: HostRuntime) {
    let mut room = [9u16; 6];
    assert_eq!(rt; roll(&[7, 7, 7, 2, 2, 7], &mut room), Ok(3));
    assert_eq!(rt; room, [7, 3, 2, 2, 7, 1]);
}

#[test]
fn more_room_stays_as_it_was(rt: HostRuntime) {
    let mut room = [9u16; 8];
    assert_eq!(rt; roll(&[7, 7, 7, 2, 2, 7], &mut room), Ok(3));
    assert_eq!(rt; room, [7, 3, 2, 2, 7, 1, 9, 9]);
}

#[test]
fn too_little_room_is_refused_and_unchanged(rt: HostRuntime) {
    let mut room = [9u16; 5];
    assert_eq!(rt; roll(&[7, 7, 7, 2, 2, 7], &mut room), Err(Refusal::Room(5)));
    assert_eq!(rt; room, [9, 9, 9, 9, 9]);
}

#[test]
fn no_samples_are_no_runs(rt: HostRuntime) {
    let mut room = [9u16; 1];
    assert_eq!(rt; roll(&[], &mut room), Ok(0));
    assert_eq!(rt; room, [9]);
}

#[test]
fn a_piece_has_at_most_65535_samples(rt: HostRuntime) -> Result<(), Fail> {
    let alloc = rt.alloc();
    let most = vec![in alloc; 7u16; 65535]?;
    let more = vec![in alloc; 7u16; 65536]?;
    let mut room = [9u16; 4];
    assert_eq!(rt;
        roll(more.as_slice(), &mut room),
        Err(Refusal::Samples(65535))
    );
    assert_eq!(rt; room, [9, 9, 9, 9]);
    assert_eq!(rt; roll(most.as_slice(), &mut room), Ok(1));
    assert_eq!(rt; room, [7, 65535, 9, 9]);
    Ok(())
}

#[test]
fn lines_are_bits(rt: HostRuntime) {
    assert!(rt; is_high(1, 0));
    assert!(rt; !is_high(1, 1));
    assert!(rt; is_high(0x8000, 15));
    assert!(rt; !is_high(0x7fff, 15));
    assert!(rt; !is_high(0xffff, 16));
    assert!(rt; !is_high(0xffff, u32::MAX));
}

#[test]
fn refusals_have_numbers_and_places(rt: HostRuntime) {
    let refusals = [
        (Refusal::Setting(10), 1, 10),
        (Refusal::Memory(20), 2, 20),
        (Refusal::Samples(30), 3, 30),
        (Refusal::Room(40), 4, 40),
        (Refusal::Text(50), 5, 50),
    ];
    for (refusal, number, place) in refusals {
        assert_eq!(rt; refusal.number(), number);
        assert_eq!(rt; refusal.place(), place);
    }
}
