use super::*;
use clause_arena::Lit;
use std::test::Fail;

#[test]
fn going_back_keeps_the_lower_levels(rt: HostRuntime) -> Result<(), Fail> {
    let mut trail = Trail::new(rt.alloc(), 3)?;
    let (one, not_two, three) = (
        Lit::from_var(1, false),
        Lit::from_var(2, true),
        Lit::from_var(3, false),
    );
    assert_eq!(rt; trail.variables(), 3);
    trail.assign(one, Some(7));
    assert_eq!(rt; trail.next().is_some(), true);
    if let Some(_) = trail.value(not_two) {
        return Ok(());
    }
    trail.decide(not_two);
    assert_eq!(rt; trail.len(), 2);
    assert_eq!(rt; trail.level(), 1);
    assert_eq!(rt; trail.value(Lit::from_var(2, false)), Some(false));
    assert_eq!(rt; trail.value(three), None);
    trail.back_to(0);
    assert_eq!(rt; trail.len(), 1);
    assert_eq!(rt; trail.value(not_two), None);
    assert_eq!(rt; trail.value(one), Some(true));
    Ok(())
}
