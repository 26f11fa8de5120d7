//! What no clause says: that a first place is found where there is one, and that printed bounds are told apart. The
//! answers were worked out by hand.

use crate::codes::{first_lost, first_same};
use crate::fitting::first_difference;
use crate::judging::attains;
use cpog_base::{OpId, OpSet, Pattern, ScenId};
use report_text::Bound;
use std::test::Fail;

#[test]
fn the_first_codes_that_are_equal_are_found(rt: HostRuntime) -> Result<(), Fail> {
    let last_first = first_same(&[3, 1, 2, 1, 3]);
    assert_eq!(rt; last_first, Some((ScenId(3), ScenId(1))));
    let thrice = first_same(&[5, 0, 5, 5]);
    assert_eq!(rt; thrice, Some((ScenId(2), ScenId(0))));
    assert_eq!(rt; first_same(&[0, 2, 1]), None);
    Ok(())
}

#[test]
fn the_first_code_without_its_given_bits_is_found(rt: HostRuntime) -> Result<(), Fail> {
    // The bit of weight 1 of the second code is given as 1.
    let patterns = [Pattern::free(2), Pattern::new(2, 1, 1)];
    assert_eq!(rt; first_lost(&patterns, &[3, 1]), None);
    assert_eq!(rt; first_lost(&patterns, &[1, 2]), Some(ScenId(1)));
    Ok(())
}

#[test]
fn the_first_pair_that_differs_is_found(rt: HostRuntime) -> Result<(), Fail> {
    let none = OpSet::empty();
    let mut both = OpSet::empty();
    both.insert(OpId(0));
    both.insert(OpId(1));
    let mut second = OpSet::empty();
    second.insert(OpId(1));
    // In the rows the operations 0 and 1 are before 2, in the others 1 alone is before 2, and also before itself.
    let rows = [none, none, both];
    let others = [none, second, second];
    let first = first_difference(&rows, &others);
    assert_eq!(rt; first, Some((OpId(0), OpId(2))));
    // An operation before itself is told.
    let alike = [none, none, second];
    let itself = first_difference(&alike, &others);
    assert_eq!(rt; itself, Some((OpId(1), OpId(1))));
    assert_eq!(rt; first_difference(&rows, &rows), None);
    Ok(())
}

#[test]
fn equal_bounds_are_no_minimum(rt: HostRuntime) -> Result<(), Fail> {
    assert!(rt; attains(4, Bound::Minimum(4)));
    assert!(rt; attains(4, Bound::Between(3, 4)));
    assert!(rt; !attains(4, Bound::Between(4, 4)));
    assert!(rt; !attains(4, Bound::Between(3, 5)));
    Ok(())
}
