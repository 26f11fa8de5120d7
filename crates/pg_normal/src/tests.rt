use crate::{
    InstanceFault, NameFault, NormalForm, Partial, instance, normals, write_form, write_normal,
};
use cpog_base::{Memory, Names};
use pg_algebra::Table;
use pg_text::read_file;
use std::alloc::Global;
use std::test::Fail;

#[test]
fn a_form_has_its_vertices(rt: HostRuntime) -> Result<(), Fail> {
    let mut form = NormalForm::new(rt.alloc());
    form.add_vertex(3, Table(0xAAAA_AAAA_AAAA_AAAA))?;
    assert_eq!(rt; form.vertices(), 1);
    assert_eq!(rt; form.vertex_table(3), Table(0xAAAA_AAAA_AAAA_AAAA));
    assert_eq!(rt; form.vertex_table(2), Table(0));
    let left_open = Partial {
        fixed: 0,
        values: 0,
    };
    assert!(rt;
        matches!(
            instance(rt.alloc(), &form, left_open, 4),
            Err(InstanceFault::Unbound(0))
        )
    );
    let bound = Partial {
        fixed: 1,
        values: 1,
    };
    assert!(rt; matches!(instance(rt.alloc(), &form, bound, 4), Ok(_)));
    Ok(())
}

/// The fault of the names in a text: its kind, its line and its name.
fn is_fault(alloc: Global, text: &str, kind: u8, at: u32, told: &str) -> bool {
    if text.len() > 1000 {
        return false;
    }
    let Ok(file) = read_file(alloc, text.as_bytes()) else {
        return false;
    };
    match normals(alloc, &file) {
        Err(NameFault::Duplicate { line, name }) => {
            kind == 0 && line == at && name.as_str() == told
        }
        Err(NameFault::UnknownGraph { line, name }) => {
            kind == 1 && line == at && name.as_str() == told
        }
        Err(NameFault::UnknownParam { line, name }) => {
            kind == 2 && line == at && name.as_str() == told
        }
        _ => false,
    }
}

/// Whether the names of a text are in order.
fn is_in_order(alloc: Global, text: &str) -> bool {
    if text.len() > 1000 {
        return false;
    }
    let Ok(file) = read_file(alloc, text.as_bytes()) else {
        return false;
    };
    normals(alloc, &file).is_ok()
}

#[test]
fn the_first_fault_of_names_is_told(rt: HostRuntime) {
    let alloc = rt.alloc();
    assert!(rt; is_fault(alloc, "params a, b, a\n", 0, 1, "a"));
    assert!(rt; is_fault(alloc, "\ngraph g = @g\n", 1, 2, "g"));
    assert!(rt; is_fault(alloc, "graph g = a -> @h\ngraph h = a\n", 1, 1, "h"));
    assert!(rt; is_fault(alloc, "params p\nscenario s = [q] @g\n", 2, 2, "q"));
    assert!(rt;
        is_fault(
            alloc,
            "params p\nscenario s = a with p = 0, p = 1\n",
            0,
            2,
            "p"
        )
    );
    assert!(rt;
        is_fault(
            alloc,
            "scenario s = a with q = 1\nscenario s = a\n",
            2,
            1,
            "q"
        )
    );
    assert!(rt; is_fault(alloc, "graph g = a\ngraph g = @h\n", 0, 2, "g"));
    assert!(rt;
        is_in_order(
            alloc,
            "params a\ngraph a = [a] a\nscenario a = @a with a = 1\n"
        )
    );
    assert!(rt;
        is_in_order(
            alloc,
            "params p\nscenario s = a with p = 1\nscenario t = a with p = 0\n"
        )
    );
}

fn names_of(alloc: Global, texts: &[&str]) -> Result<Names, Memory> {
    let mut names = Names::new(alloc);
    'texts: for text in texts.iter() {
        if names.len() < 64 {
            names.insert(text)?;
        }
    }
    Ok(names)
}

fn text_of(alloc: Global, form: &NormalForm) -> Result<Vec<u8>, Memory> {
    let names = names_of(alloc, &["a"])?;
    let params = names_of(alloc, &["x", "y"])?;
    write_form(alloc, form, &names, &params)
}

#[test]
fn a_condition_is_written_by_valuations(rt: HostRuntime) -> Result<(), Fail> {
    let mut form = NormalForm::new(rt.alloc());
    form.add_vertex(0, Table(0xEEEE_EEEE_EEEE_EEEE))?;
    let text = text_of(rt.alloc(), &form)?;
    assert_eq!(rt; text.as_slice(), "[x & !y | !x & y | x & y] a".as_bytes());
    Ok(())
}

/// Whether the forms of a text are written so.
fn is_written(alloc: Global, text: &str, want: &str) -> bool {
    if text.len() > 1000 {
        return false;
    }
    let Ok(file) = read_file(alloc, text.as_bytes()) else {
        return false;
    };
    let Ok(list) = normals(alloc, &file) else {
        return false;
    };
    match write_normal(alloc, &file, &list) {
        Ok(written) => written.as_slice() == want.as_bytes(),
        Err(Memory) => false,
    }
}

#[test]
fn the_forms_of_a_file_are_written(rt: HostRuntime) {
    let alloc = rt.alloc();
    assert!(rt;
        is_written(
            alloc,
            "params x\nparams y # two\n\ngraph g = [x] a -> b\nscenario s = @g + [y] c -> a with y = 1, x = 0\nscenario t = [!x] (b + empty)",
            "params x, y\ngraph g = [x] a + b + [x] (a -> b)\nscenario s = a + b + [y] c + [x] (a -> b) + [y] (c -> a) with y = 1, x = 0\nscenario t = [!x] b\n"
        )
    );
    assert!(rt;
        is_written(
            alloc,
            "scenario s = a -> b -> a\ngraph s = (c -> empty) + a\ngraph h = @s -> empty -> d\ngraph i = empty",
            "scenario s = a + b + (a -> a) + (a -> b) + (b -> a)\ngraph s = c + a\ngraph h = c + a + d + (c -> d) + (a -> d)\ngraph i = empty\n"
        )
    );
    assert!(rt; is_written(alloc, "# no statement\n", ""));
}

/// Whether the first form of a text has a scenario under the bindings of its statement.
fn has_instance(alloc: Global, text: &str) -> bool {
    if text.len() > 1000 {
        return false;
    }
    let Ok(file) = read_file(alloc, text.as_bytes()) else {
        return false;
    };
    let Ok(list) = normals(alloc, &file) else {
        return false;
    };
    let count = file.operations().len();
    if list.len() == 0 || count > 64 {
        return false;
    }
    instance(alloc, list.form(0), list.bound(0), count as u8).is_ok()
}

#[test]
fn bindings_leave_no_choice(rt: HostRuntime) {
    let alloc = rt.alloc();
    assert!(rt; has_instance(alloc, "params x, y\nscenario s = [x] a -> b with x = 0"));
    assert!(rt; !has_instance(alloc, "params x, y\nscenario s = [x] a -> b with y = 0"));
}
