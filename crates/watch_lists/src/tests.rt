use super::*;
use std::test::Fail;

#[test]
fn places_are_made_where_memory_is_there(rt: HostRuntime) -> Result<(), Fail> {
    let mut watches = Watches::new(rt.alloc(), 3)?;
    watches.reserve(2)?;
    watches.reserve(1)?;
    Ok(())
}
