use crate::{Cond, CondList, Expr, ExprList, Table, table_of};
use cpog_base::{Memory, Name, Names};
use sqlite_items::Boxed;
use std::alloc::Global;
use std::test::Fail;

/// `x & !y | z`
fn sample(alloc: Global) -> Result<Cond, Memory> {
    let x = Cond::Param(Name::new(alloc, "x")?);
    let y = Cond::Param(Name::new(alloc, "y")?);
    let z = Cond::Param(Name::new(alloc, "z")?);
    let not_y = Cond::Not(Boxed::new(alloc, y)?);
    let both = Cond::And(CondList::new(vec![in alloc; x, not_y]?));
    Ok(Cond::Or(CondList::new(vec![in alloc; both, z]?)))
}

#[test]
fn a_condition_has_its_table(rt: HostRuntime) -> Result<(), Fail> {
    let mut params = Names::new(rt.alloc());
    for name in ["x", "y", "z"] {
        assert!(rt; params.len() < 6);
        params.insert(name)?;
    }
    assert!(rt; params.len() == 3);
    let table = table_of(&sample(rt.alloc())?, &params);
    assert_eq!(rt; table, Some(Table(0xF2F2_F2F2_F2F2_F2F2)));
    Ok(())
}

#[test]
fn a_condition_over_another_parameter_has_none(rt: HostRuntime) -> Result<(), Fail> {
    let mut params = Names::new(rt.alloc());
    params.insert("x")?;
    assert!(rt; params.len() == 1);
    assert_eq!(rt; table_of(&sample(rt.alloc())?, &params), None);
    Ok(())
}

#[test]
fn a_table_is_fixed_and_depends(rt: HostRuntime) {
    let table = Table(0xF2F2_F2F2_F2F2_F2F2);
    assert!(rt; table.depends(0));
    assert!(rt; table.depends(1));
    assert!(rt; table.depends(2));
    assert!(rt; !table.depends(3));
    assert_eq!(rt; table.fix(1, true), Table::of_param(2));
    assert_eq!(rt; table.fix(2, true), Table::constant(true));
    assert_eq!(rt; table.fix(2, false).fix(1, false), Table::of_param(0));
}

#[test]
fn a_list_has_its_members(rt: HostRuntime) -> Result<(), Fail> {
    let list = ExprList::new(vec![in rt.alloc(); Expr::Op(7), Expr::Empty]?);
    assert_eq!(rt; list.members().len(), 2);
    assert!(rt; matches!(list.members().get(0), Some(Expr::Op(7))));
    assert!(rt; matches!(list.members().get(1), Some(Expr::Empty)));
    Ok(())
}
