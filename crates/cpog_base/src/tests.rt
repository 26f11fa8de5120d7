use super::*;
use std::test::Fail;

#[test]
fn names_keep_their_places(rt: HostRuntime) -> Result<(), Fail> {
    let mut names = Names::new(rt.alloc());
    for (name, want) in [("decode", 0), ("fetch", 1), ("decode", 0), ("alu", 2)] {
        assert!(rt; names.len() < 4);
        assert_eq!(rt; names.insert(name)?, want, "the place of {name}");
    }
    assert_eq!(rt; names.len(), 3);
    assert_eq!(rt; names.find("fetch"), Some(1));
    assert_eq!(rt; names.find("wback"), None);
    let copy = names.try_clone(rt.alloc())?;
    assert!(rt; copy.equals(&names));
    Ok(())
}

#[test]
fn a_name_is_its_text(rt: HostRuntime) -> Result<(), Fail> {
    let name = Name::new(rt.alloc(), "alu")?;
    assert_eq!(rt; name.as_str(), "alu");
    Ok(())
}

#[test]
fn an_arc_stands_once(rt: HostRuntime) -> Result<(), Fail> {
    let mut scenario = Scenario::new(rt.alloc(), 3);
    scenario.add_op(OpId(0));
    scenario.add_op(OpId(2));
    assert!(rt; scenario.ops().contains(OpId(0)));
    assert!(rt; scenario.ops().contains(OpId(2)));
    scenario.add_arc(OpId(0), OpId(2))?;
    assert!(rt; scenario.ops().contains(OpId(0)));
    assert!(rt; scenario.ops().contains(OpId(2)));
    scenario.add_arc(OpId(0), OpId(2))?;
    assert_eq!(rt; scenario.arcs().len(), 1);
    Ok(())
}
