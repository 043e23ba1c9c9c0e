use crate::mapping::{Binding, Blank, Mapping};

impl Blank for u16 {
    ghost blank = { 0 };

    fn blank() -> u16 {
        0
    }
}

/// What a memory holds before a mapping uses it.
const UNUSED: Binding<u16> = Binding { slot: 7, entry: 7 };

#[test]
fn newest_of_a_slot_is_found(rt: HostRuntime) {
    let mut memory = [UNUSED; 2];
    let mut mapping = Mapping::new(&mut memory);
    assert!(rt; mapping.bind(1, 10).is_ok());
    assert!(rt; mapping.bind(1, 20).is_ok());
    assert_eq!(rt; mapping.find(0, 1), Some(20));
}

#[test]
fn cut_brings_the_older_back_and_leaves_a_blank(rt: HostRuntime) {
    let mut memory = [UNUSED; 3];
    let mut mapping = Mapping::new(&mut memory);
    assert!(rt; mapping.bind(1, 10).is_ok());
    assert!(rt; mapping.bind(1, 20).is_ok());
    mapping.cut(1);
    assert_eq!(rt; mapping.find(0, 1), Some(10));
    assert_eq!(rt; memory[0].entry, 10);
    assert_eq!(rt; memory[1].entry, 0);
    assert_eq!(rt; memory[2].entry, 7);
}

#[test]
fn full_memory_refuses_and_loses_nothing(rt: HostRuntime) {
    let mut memory = [UNUSED; 1];
    let mut mapping = Mapping::new(&mut memory);
    assert!(rt; mapping.bind(1, 10).is_ok());
    assert!(rt; mapping.bind(2, 20).is_err());
    assert_eq!(rt; mapping.length(), 1);
    assert_eq!(rt; mapping.find(0, 1), Some(10));
}

#[test]
fn earlier_bindings_are_not_seen(rt: HostRuntime) {
    let mut memory = [UNUSED; 2];
    let mut mapping = Mapping::new(&mut memory);
    assert!(rt; mapping.bind(1, 10).is_ok());
    let earlier = mapping.length();
    assert!(rt; mapping.bind(2, 20).is_ok());
    assert_eq!(rt; mapping.find(earlier, 2), Some(20));
    assert_eq!(rt; mapping.find(earlier, 1), None);
}
