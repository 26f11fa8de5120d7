//! The classes among the columns. The open columns are laid out in column order, one behind the other, so that each is
//! compared with those before and behind it. Then each column looks for the first class that serves it.

ghost use Rattle.std.specs.Prelude.{List, ◌≡◌, ◌<◌, ◌≤◌, ◌^◌, [], ◌∷◌, ◌++◌, if◌then◌else◌, length, map, IfOk, OnOk};
ghost use Rattle.std.specs.List.{All};
ghost use Rattle.cpog_defs.specs.Graphs.{IsPlace};
ghost use Rattle.cpog_defs.specs.declared.types.Ref.{Ref};
ghost use Rattle.cpog_defs.specs.Encodings.{Encoding};
ghost use Rattle.cpog_merge.specs.Columns.{column_at, AgreesWith};
ghost use Rattle.cpog_merge.specs.Classes.{AreClassPlaces, AreClassesOf};
ghost use Rattle.gate_core.specs.Columns.{IsOpenColumn};
ghost use Rattle.gate_core.specs.Serving.{ReferencesServe};
ghost use Rattle.cpog_merge.specs.ByClass.{IsGraphByClass};
ghost use Rattle.cpog_merge.specs.Opens.{is_open as is_open_column, open_ops, open_arcs_from, open_places as places_open, chosen, op_belongings, arc_belongings_from, arc_belongings, HaveClasses};

use crate::class_list::{Belongs, ClassList};
use crate::columns::Columns;
use crate::serving::{belongs_to, is_class, is_open};
use cpog_base::{Column, Memory, OpId};
use cpog_defs::types::Place;
use std::alloc::Global;

/// Appends the place, where its column is open.
fn push_if_open(places: &mut Vec<Place>, p: Place, column: &Column) -> Result<(), Memory>
    ensures { OnOk result (places.new.items ≡ places.old.items ++ (if is_open_column column.now then p ∷ [] else [])) }
{
    if is_open(column) {
        places.push(p)?;
    }
    Ok(())
}

fn open_operations(alloc: Global, columns: &Columns) -> Result<Vec<Place>, Memory>
    ensures { IfOk result (λ places. places.items ≡ open_ops columns.now columns.now.count) }
{
    let mut places = Vec::new(alloc);
    for v in 0..columns.count() {
        push_if_open(&mut places, Place::Op(OpId(v)), &columns.op(OpId(v)))?;
    }
    Ok(places)
}

/// Appends the open pairs from u, by their second.
fn push_open_from(places: &mut Vec<Place>, columns: &Columns, u: OpId) -> Result<(), Memory>
    requires { u.0 < columns.now.count }
    ensures { OnOk result (places.new.items ≡ places.old.items ++ open_arcs_from columns.now columns.now.count u.0) }
{
    for v in 0..columns.count() {
        if u.0 != v {
            push_if_open(places, Place::Arc(u, OpId(v)), &columns.arc(u, OpId(v)))?;
        }
    }
    Ok(())
}

/// The open places, in column order.
fn open_places(alloc: Global, columns: &Columns) -> Result<Vec<Place>, Memory>
    ensures { IfOk result (λ places. places.items ≡ places_open columns.now) }
{
    let mut places = open_operations(alloc, columns)?;
    for u in 0..columns.count() {
        push_open_from(&mut places, columns, OpId(u))?;
    }
    Ok(places)
}

fn column_of(columns: &Columns, p: Place) -> Column
    requires { IsPlace columns.now.count p }
    ensures { result ≡ column_at columns.now p }
{
    match p {
        Place::Op(v) => columns.op(v),
        Place::Arc(u, v) => columns.arc(u, v),
    }
}

/// The columns of these places, one behind the other.
fn columns_of(alloc: Global, columns: &Columns, places: &[Place]) -> Result<Vec<Column>, Memory>
    requires { All (IsPlace columns.now.count) places.now }
    ensures { IfOk result (λ list. list.items ≡ map (column_at columns.now) places.now) }
{
    let mut list = Vec::new(alloc);
    for p in places {
        list.push(column_of(columns, *p))?;
    }
    Ok(list)
}

/// Of these places those whose columns are classes.
fn choose(alloc: Global, places: &[Place], columns: &[Column]) -> Result<Vec<Place>, Memory>
    requires { length places.now ≡ length columns.now }
    ensures { IfOk result (λ list. list.items ≡ chosen columns.now places.now (length columns.now)) }
{
    let mut list = Vec::new(alloc);
    for i in 0..columns.len() {
        if is_class(columns, i) {
            list.push(places[i])?;
        }
    }
    Ok(list)
}

/// The places of the classes, in column order.
fn class_places(alloc: Global, columns: &Columns) -> Result<Vec<Place>, Memory>
    ensures places { IfOk result (λ places. AreClassPlaces columns.now places.items) }
    ensures few { IfOk result (λ places. length places.items ≤ 16384) }
{
    // That no column is missing is known once their count is read.
    let _count = columns.count();
    let open = open_places(alloc, columns)?;
    let open_columns = columns_of(alloc, columns, &open)?;
    choose(alloc, &open, &open_columns)
}

/// What the columns of the operations belong to.
fn operations_belong(
    alloc: Global,
    columns: &Columns,
    classes: &[Column],
) -> Result<Vec<Belongs>, Memory>
    requires few { length classes.now < 2 ^ 32 }
    requires served { HaveClasses classes.now columns.now }
    ensures { IfOk result (λ list. list.items ≡ op_belongings columns.now classes.now columns.now.count) }
{
    let mut list = Vec::new(alloc);
    for v in 0..columns.count() {
        list.push(belongs_to(classes, &columns.op(OpId(v))))?;
    }
    Ok(list)
}

/// Appends what the columns of the pairs from u belong to, by their second.
fn push_belongs_from(
    list: &mut Vec<Belongs>,
    columns: &Columns,
    classes: &[Column],
    u: OpId,
) -> Result<(), Memory>
    requires below { u.0 < columns.now.count }
    requires few { length classes.now < 2 ^ 32 }
    requires served { HaveClasses classes.now columns.now }
    ensures { OnOk result (list.new.items ≡ list.old.items ++ arc_belongings_from columns.now classes.now columns.now.count u.0) }
{
    for v in 0..columns.count() {
        if u.0 == v {
            list.push(Belongs::Const(false))?;
        } else {
            list.push(belongs_to(classes, &columns.arc(u, OpId(v))))?;
        }
    }
    Ok(())
}

/// What the columns of the pairs belong to.
fn pairs_belong(
    alloc: Global,
    columns: &Columns,
    classes: &[Column],
) -> Result<Vec<Belongs>, Memory>
    requires few { length classes.now < 2 ^ 32 }
    requires served { HaveClasses classes.now columns.now }
    ensures { IfOk result (λ list. list.items ≡ arc_belongings columns.now classes.now columns.now.count columns.now.count) }
{
    let mut list = Vec::new(alloc);
    for u in 0..columns.count() {
        push_belongs_from(&mut list, columns, classes, OpId(u))?;
    }
    Ok(list)
}

/// The classes of some columns, and what each column belongs to. Of columns that serve each other the first stands for
/// all; a column that another serves, and that does not serve it back, stands for none.
///
/// # Errors
///
/// `Memory` where none is left.
pub fn classes(alloc: Global, columns: &Columns) -> Result<ClassList, Memory>
    ensures classes { IfOk result (λ list. AreClassesOf columns.now list) }
    ensures open_columns { IfOk result (λ list. All (IsOpenColumn columns.now.scenarios) list.columns) }

    // Conditions that are those of the classes agree with all columns.
    ensures graphs { IfOk result (λ list. (e : Encoding) (refs : List Ref) → length e.codes ≡ columns.now.scenarios →
        ReferencesServe list.columns e.codes e.gates refs → IsGraphByClass columns.now.count list refs e.graph → AgreesWith e columns.now) }
{
    let count = columns.count();
    let places = class_places(alloc, columns)?;
    let class_columns = columns_of(alloc, columns, &places)?;
    let ops = operations_belong(alloc, columns, &class_columns)?;
    let arcs = pairs_belong(alloc, columns, &class_columns)?;
    Ok(ClassList::from_vecs(count, places, class_columns, ops, arcs))
}
