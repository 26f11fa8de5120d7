use super::*;
use std::test::Fail;

fn numbers_are(lits: &[Lit], numbers: &[i32]) -> bool {
    if lits.len() != numbers.len() {
        return false;
    }
    'lits: for i in 0..lits.len() {
        if lits[i].number() != numbers[i] {
            return false;
        }
    }
    true
}

#[test]
fn clauses_are_added_and_swapped(rt: HostRuntime) -> Result<(), Fail> {
    let a = Lit::from_var(1, false);
    let b = Lit::from_var(2147483647, true);
    let c = Lit::new(-3).unwrap_or(a);
    let mut arena = ClauseArena::new(rt.alloc());
    assert_eq!(rt; arena.push(&[a, b, c])?, 0);
    arena.reserve(2, 3)?;
    assert_eq!(rt; arena.push_reserved(&[]), 1);
    assert_eq!(rt; arena.push_reserved(&[c, a]), 2);
    arena.clause_mut(0).swap(0, 2);
    assert_eq!(rt; arena.len(), 3);
    assert_eq!(rt; arena.literal_count(), 5);
    assert!(rt; numbers_are(arena.clause(0), &[-3, -2147483647, 1]));
    assert!(rt; numbers_are(arena.clause(1), &[]));
    assert!(rt; numbers_are(arena.clause(2), &[-3, 1]));
    assert_eq!(rt; b.code(), 4294967295);
    assert_eq!(rt; Lit::new(0).is_none(), true);
    assert_eq!(rt; Lit::new(i32::MIN).is_none(), true);
    Ok(())
}
