//! The steps of the handshake machine.
ghost use Rattle.std.specs.Prelude.{◌≡◌, ◌≢◌, ◌↔◌, ℕ, ◌<◌, IsTrue, List, length, slice_get, Some, IfSome, IfNone};
ghost use Rattle.std.specs.List.{AllPairs};
ghost use Rattle.std.specs.FinSet as set;
ghost use Rattle.cpog_defs.specs.Orders as orders_defs;
ghost use Rattle.handshake_eqs.specs.declared.machine.Machine.{Machine};
ghost use Rattle.handshake_eqs.specs.Machines.{Step, IsReady, IsKept, IsMachineOf, IsReturned};

use crate::{Event, Machine};
use cpog_base::{OpId, OpSet, Order, ScenId};

/// The state after an event, where the event is lawful in this state.
pub fn step(orders: &[Order], codes: &[u8], machine: &Machine, event: Event) -> Option<Machine>
    requires one_each { length codes.now ≡ length orders.now }
    requires distinct { AllPairs (λ a b. a ≢ b) codes.now }
    requires scenario { IsMachineOf (length orders.now) machine.now }
    ensures some { IfSome result (λ m. Step orders.now codes.now machine.now event m) }
    ensures none { IfNone result ((m : Machine) → Step orders.now codes.now machine.now event m → ⊥) }
    ensures kept { IfSome result (λ m. IsKept orders.now machine.now → IsKept orders.now m) }
    ensures scenario { IfSome result (λ m. IsMachineOf (length orders.now) m) }
{
    match *machine {
        Machine::Idle => from_idle(codes, event),
        Machine::Running { scenario, acked } => from_running(
            &orders[scenario.0 as usize],
            scenario,
            acked,
            event,
        ),
        Machine::Returning { scenario, acked } => from_returning(scenario, acked, event),
    }
}

/// A start is lawful on a scenario's code.
fn from_idle(codes: &[u8], event: Event) -> Option<Machine>
    requires { AllPairs (λ a b. a ≢ b) codes.now }
    ensures some { IfSome result (λ m. (orders : List orders_defs.Order) → Step orders codes.now Machine.Idle event m) }
    ensures none { IfNone result ((m : Machine) (orders : List orders_defs.Order) → Step orders codes.now Machine.Idle event m → ⊥) }
{
    match event {
        Event::Start(word) => match place_of(codes, word) {
            Some(place) => Some(Machine::Running {
                scenario: ScenId(place),
                acked: OpSet::empty(),
            }),
            None => None,
        },
        Event::Ack(_) | Event::Finish | Event::Drop(_) => None,
    }
}

/// An acknowledge is lawful where it is new and its operation is ready, and the fall of go where all are acknowledged.
fn from_running(order: &Order, scenario: ScenId, acked: OpSet, event: Event) -> Option<Machine>
    ensures some { IfSome result (λ m. (orders : List orders_defs.Order) (codes : List ℕ) → slice_get orders scenario.0 ≡ Some order.now → Step orders codes (Machine.Running scenario acked) event m) }
    ensures none { IfNone result ((m : Machine) (orders : List orders_defs.Order) (codes : List ℕ) → slice_get orders scenario.0 ≡ Some order.now → Step orders codes (Machine.Running scenario acked) event m → ⊥) }
{
    match event {
        Event::Ack(v) => {
            if is_ready(order, &acked, v) && !acked.contains(v) {
                let mut acked = acked;
                acked.insert(v);
                Some(Machine::Running { scenario, acked })
            } else {
                None
            }
        }
        Event::Finish => {
            if order.ops().subset(&acked) {
                Some(returning(scenario, acked))
            } else {
                None
            }
        }
        Event::Start(_) | Event::Drop(_) => None,
    }
}

/// The fall of an acknowledge is lawful where it stands.
fn from_returning(scenario: ScenId, acked: OpSet, event: Event) -> Option<Machine>
    ensures some { IfSome result (λ m. (orders : List orders_defs.Order) (codes : List ℕ) → Step orders codes (Machine.Returning scenario acked) event m) }
    ensures none { IfNone result ((m : Machine) (orders : List orders_defs.Order) (codes : List ℕ) → Step orders codes (Machine.Returning scenario acked) event m → ⊥) }
{
    match event {
        Event::Drop(v) => {
            if acked.contains(v) {
                let mut acked = acked;
                acked.remove(v);
                Some(returning(scenario, acked))
            } else {
                None
            }
        }
        Event::Start(_) | Event::Ack(_) | Event::Finish => None,
    }
}

/// Returning with these acknowledges, which is Idle where there is none.
fn returning(scenario: ScenId, acked: OpSet) -> Machine
    ensures { IsReturned scenario acked result }
{
    if acked.count() == 0 {
        Machine::Idle
    } else {
        Machine::Returning { scenario, acked }
    }
}

/// Whether the scenario has the operation, and each operation before it is acknowledged.
fn is_ready(order: &Order, acked: &OpSet, v: OpId) -> bool
    ensures ready { IsTrue result ↔ IsReady acked.now v.0 order.now }
    ensures below { IsTrue result → v.0 < 128 }
{
    v.0 < order.count() && order.ops().contains(v) && order.before(v).subset(acked)
}

/// The place of a word among the codes.
fn place_of(codes: &[u8], word: u8) -> Option<u8>
    requires { AllPairs (λ a b. a ≢ b) codes.now }
    ensures some { IfSome result (λ s. slice_get codes.now s ≡ Some word) }
    ensures none { IfNone result ((s : ℕ) → slice_get codes.now s ≡ Some word → ⊥) }
{
    for (s, code) in codes.iter().enumerate() {
        if *code == word {
            return Some(s as u8);
        }
    }
    None
}
