//! Which columns serve which. A column is compared with another by a few steps on words, so comparing each of some
//! thousand columns with each other is a fraction of a second.

ghost use Rattle.std.specs.Prelude.{◌≡◌, ◌<◌, ◌^◌, ◌||◌, not, length};
ghost use Rattle.std.specs.List.{list_any, list_all};
ghost use Rattle.cpog_merge.specs.Opens.{is_open as is_open_column, serves as serves_column, is_class_at, first_class, belonging, HasClass};

use crate::class_list::Belongs;
use cpog_base::Column;

/// Whether a column asks for a 1 at some scenario, and for a 0 at another.
pub(crate) fn is_open(column: &Column) -> bool
    ensures { result ≡ is_open_column column.now }
{
    column.has_one() && column.has_zero()
}

/// Whether one column serves another, as it stands or complemented.
fn serves(by: &Column, to: &Column) -> bool
    ensures { result ≡ serves_column by.now to.now }
{
    by.serves(to) || by.opposes(to)
}

/// Whether one of the columns serves this.
fn any_serves(columns: &[Column], to: &Column) -> bool
    ensures { result ≡ list_any (λ q. serves_column q to.now) columns.now }
{
    columns.iter().any(|q| serves(q, to))
}

/// Whether this serves each of the columns that serves it.
fn serves_back(columns: &[Column], by: &Column) -> bool
    ensures { result ≡ list_all (λ q. not (serves_column q by.now) || serves_column by.now q) columns.now }
{
    columns.iter().all(|q| !serves(q, by) || serves(by, q))
}

/// Whether the column at a place of the open ones is a class.
pub(crate) fn is_class(columns: &[Column], i: usize) -> bool
    requires { i < length columns.now }
    ensures { result ≡ is_class_at columns.now i }
{
    let p = columns[i];
    !any_serves(&columns[..i], &p) && serves_back(&columns[i + 1..], &p)
}

/// The first class that serves a column, or their number.
fn first_serving(classes: &[Column], column: &Column) -> usize
    ensures { result ≡ first_class classes.now column.now }
{
    classes
        .iter()
        .take_while(|class| !serves(class, column))
        .count()
}

/// What a column belongs to.
pub(crate) fn belongs_to(classes: &[Column], column: &Column) -> Belongs
    requires few { length classes.now < 2 ^ 32 }
    requires served { HasClass classes.now column.now }
    ensures { result ≡ belonging classes.now column.now }
{
    if !column.has_one() {
        return Belongs::Const(false);
    }
    if !column.has_zero() {
        return Belongs::Const(true);
    }
    let number = first_serving(classes, column);
    Belongs::Class {
        number: number as u32,
        negated: !classes[number].serves(column),
    }
}
