//! Blocks of memory of sizes that no member asks for.

use raw_block::Block;
use std::alloc::Global;
use std::test::Fail;

#[test]
fn a_block_of_no_places_is_made(rt: HostRuntime) -> Result<(), Fail> {
    let block: Block<u64, Global> = Block::with_capacity(rt.alloc(), 0)?;
    assert_eq!(rt; block.len(), 0);
    assert_eq!(rt; block.as_slice(), [].as_slice());
    Ok(())
}

#[test]
fn a_size_that_no_block_has_is_refused(rt: HostRuntime) {
    for capacity in [usize::MAX, 0x1000_0000_0000_0000, 0x0fff_ffff_ffff_ffff] {
        let block: Result<Block<u64, Global>, _> = Block::with_capacity(rt.alloc(), capacity);
        assert!(rt; block.is_err(), "{capacity} places");
    }
}
