use choosers::stride::Stride;
use rules::sizes::Sizes;
use std::test::Fail;
use terms::refusals::Refusal;

// Asks a Result for its error; it is no way to fail.
fn refusal_of(cells: u64, crews: u64, entries: u64) -> Option<Refusal> {
    Sizes::new(cells, crews, entries).err()
}

#[test]
fn sizes_at_their_edges(rt: HostRuntime) -> Result<(), Fail> {
    let most = Sizes::new(1024, 32, 65_535)?;
    assert_eq!(rt; (most.cells, most.crews, most.entries), (1024, 32, 65_535));
    assert!(rt; Sizes::new(1, 1, 1).is_ok());
    assert_eq!(rt; refusal_of(0, 1, 1), Some(Refusal::BadSize));
    assert_eq!(rt; refusal_of(1025, 1, 1), Some(Refusal::BadSize));
    assert_eq!(rt; refusal_of(1, 0, 1), Some(Refusal::BadSize));
    assert_eq!(rt; refusal_of(1, 33, 1), Some(Refusal::BadSize));
    assert_eq!(rt; refusal_of(1, 1, 0), Some(Refusal::BadSize));
    assert_eq!(rt; refusal_of(1, 1, 65_536), Some(Refusal::BadSize));
    Ok(())
}

#[test]
fn strides_at_their_edges(rt: HostRuntime) {
    assert!(rt; Stride::new(1).is_ok());
    assert!(rt; Stride::new(1_000_000).is_ok());
    assert_eq!(rt; Stride::new(0).err(), Some(Refusal::BadSize));
    assert_eq!(rt; Stride::new(1_000_001).err(), Some(Refusal::BadSize));
}
