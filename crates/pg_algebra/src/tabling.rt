//! The table of a condition is made in one walk over its tree.
ghost use Rattle.std.specs.Prelude.{◌≡◌, ◌<◌, ◌≤◌, ℕ, is_some, IfSome, length};
ghost use Rattle.std.specs.List.{list_all, list_any};
ghost use Rattle.cpog_base.specs.Names.{has_text};
ghost use Rattle.cpog_defs.specs.Codes.{bit};
ghost use Rattle.pg_algebra.specs.Conditions.{value, valuation, params_of};

use crate::{Cond, Table};
use cpog_base::{Names, PARAM_LIMIT};

/// The table that is 1 where each of the conditions is. `None` where one of them names another parameter.
#[cycle(table)]
fn table_of_all(members: &[Cond], params: &Names) -> Option<Table>
    requires { length params.now ≤ PARAM_LIMIT }
    ensures known { is_some result ≡ list_all (λ c. list_all (has_text params.now) (params_of c)) members.now }
    ensures table { IfSome result (λ t. (n : ℕ) → n < 64 → bit t.0 n ≡ list_all (value (valuation params.now n)) members.now) }
{
    let mut all = Table::constant(true);
    'every: for member in members {
        all = all.and(table_of(member, params)?);
    }
    Some(all)
}

/// The table that is 1 where one of the conditions is. `None` where one of them names another parameter.
#[cycle(table)]
fn table_of_any(members: &[Cond], params: &Names) -> Option<Table>
    requires { length params.now ≤ PARAM_LIMIT }
    ensures known { is_some result ≡ list_all (λ c. list_all (has_text params.now) (params_of c)) members.now }
    ensures table { IfSome result (λ t. (n : ℕ) → n < 64 → bit t.0 n ≡ list_any (value (valuation params.now n)) members.now) }
{
    let mut any = Table::constant(false);
    'some: for member in members {
        any = any.or(table_of(member, params)?);
    }
    Some(any)
}

/// The values of a condition under all valuations of these parameters. `None` where it names another parameter.
#[cycle(table)]
pub fn table_of(cond: &Cond, params: &Names) -> Option<Table>
    requires { length params.now ≤ PARAM_LIMIT }
    ensures known { is_some result ≡ list_all (has_text params.now) (params_of cond.now) }
    ensures table { IfSome result (λ t. (n : ℕ) → n < 64 → bit t.0 n ≡ value (valuation params.now n) cond.now) }
{
    match cond {
        Cond::Bit(value) => Some(Table::constant(*value)),
        Cond::Param(name) => {
            let place = params.find(name.as_str())?;
            Some(Table::of_param(place as u8))
        }
        Cond::Not(inner) => {
            let table = table_of(inner.get(), params)?;
            Some(table.not())
        }
        Cond::And(list) => table_of_all(list.members(), params),
        Cond::Or(list) => table_of_any(list.members(), params),
    }
}
