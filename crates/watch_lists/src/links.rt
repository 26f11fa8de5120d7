//! Writes in the links.
ghost use Rattle.std.specs.Prelude.{◌≡◌, ◌≢◌, ℕ, ◌+◌, ◌<◌, ◌≤◌, ◌^◌, length, slice_set};
ghost use Rattle.clause_arena.specs.Lits.{code_of};
ghost use Rattle.watch_lists.specs.Watched.{link_at, sibling, IsRelinked, IsInserted, IsLinked};

use crate::link::Link;
use clause_arena::Lit;

fn set_next(links: &mut [Link], place: u32, next: u32)
    requires { place < length links.old }
    ensures { links.new ≡ slice_set links.old place (record (link_at links.old place) { next = next }) }
{
    let link = &mut links[place as usize];
    link.next = next;
}

fn set_other(links: &mut [Link], place: u32, other: Lit)
    requires { place < length links.old }
    ensures { links.new ≡ slice_set links.old place (record (link_at links.old place) { other = other }) }
{
    let link = &mut links[place as usize];
    link.other = other;
}

/// Takes a node from behind `before` and puts it at the front of the list of this literal.
pub fn relink(links: &mut [Link], before: u32, node: u32, head: u32, lit: Lit)
    requires few { length links.old < 2 ^ 32 }
    requires before { before < length links.old }
    requires node { node < length links.old }
    requires code { head ≡ code_of lit }
    requires head { head < length links.old }
    requires pair { sibling node < length links.old }
    requires before_apart { before ≢ node }
    requires head_apart { head ≢ before }
    requires node_apart { head ≢ node }
    ensures { IsRelinked links.old links.new before node lit }
{
    let next = links[node as usize].next;
    set_next(links, before, next);
    let first = links[head as usize].next;
    set_next(links, node, first);
    set_next(links, head, node);
    set_other(links, node + 1 - 2 * (node % 2), lit);
}

/// Puts a node at the front of a list.
fn insert(links: &mut [Link], node: u32, head: u32)
    requires node { node < length links.old }
    requires head { head < length links.old }
    requires apart { head ≢ node }
    ensures { IsInserted links.old links.new node head }
{
    let first = links[head as usize].next;
    set_next(links, node, first);
    set_next(links, head, node);
}

/// Puts the two nodes of a clause into the lists of its first two literals.
pub fn link_clause(links: &mut [Link], node: u32, first: Lit, second: Lit)
    requires few { length links.old < 2 ^ 32 }
    requires node { node + 1 < length links.old }
    requires first { code_of first < node }
    requires second { code_of second < node }
    ensures { IsLinked links.old links.new node first second }
{
    set_other(links, node, second);
    set_other(links, node + 1, first);
    insert(links, node, first.code());
    insert(links, node + 1, second.code());
}
