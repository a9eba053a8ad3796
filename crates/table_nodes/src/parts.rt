//! The members of a write group with their nodes.

ghost use Rattle.std.specs.Prelude.{◌≡◌, ◌≤◌, ◌<◌, ◌^◌, ◌∷◌, ◌==◌, [], length, IfOk, MatchOption};
ghost use Rattle.std.specs.List.{position_from};
ghost use Rattle.table_rule.specs.Histories.{versions_in};
ghost use Rattle.table_nodes.specs.Parts.{with_part, group_of};

use crate::{GatheredNodes, Nodes};
use model_base::NoMemory;
use std::alloc::Global;
use std::marker::Model;

/// A member of a group, by its number, and its nodes.
#[derive(Drop)]
pub struct MemberNodes {
    pub member: u32,
    pub nodes: GatheredNodes,
}

/// The members of a group with their nodes, each member once, in the order in which they came. Contracts
/// see how many clients there are, and the parts.
#[derive(Drop)]
pub struct Parts {
    clients: u32,
    parts: Vec<MemberNodes>,
}

impl Model for Parts {
    ghost use Rattle.table_nodes.specs.Parts.{Members, HasRoom};

    ghost Value = { Members };

    ghost view = { λ p. record { clients = p.clients; parts = p.parts.items } };

    ghost invariant = { λ p. HasRoom p.clients p.parts };
}

impl Parts {
    /// No parts, and room for one part of each client. The clients have the numbers from 1 on.
    pub fn new(alloc: Global, clients: u32) -> Result<Parts, NoMemory>
        ensures { IfOk result (λ parts. parts ≡ record { clients = clients; parts = [] }) }
    {
        Ok(Parts {
            clients,
            parts: Vec::with_capacity(alloc, clients as usize)?,
        })
    }

    /// Appends nodes to those that a member has, or a part for it to the other parts. This takes no memory.
    pub fn add(&mut self, member: u32, nodes: Nodes)
        requires low { 1 ≤ member }
        requires high { member ≤ self.old.clients }
        ensures { self.new ≡ record self.old { parts = with_part self.old.parts member nodes } }
    {
        match self.place_of(member) {
            Some(at) => self.parts[at].nodes.append(nodes),
            None => {
                let nodes = GatheredNodes::of(nodes);
                self.parts.push(MemberNodes { member, nodes }).unwrap()
            }
        }
    }

    /// Takes the first part out.
    pub fn pop(&mut self) -> Option<MemberNodes>
        ensures parts { MatchOption result ((self.old.parts ≡ [])
            × (self.new.parts ≡ [])) (λ part. self.old.parts ≡ part ∷ self.new.parts) }
        ensures clients { self.new.clients ≡ self.old.clients }
    {
        if self.parts.is_empty() {
            return None;
        }
        Some(self.parts.remove(0))
    }

    /// How many parts there are.
    pub fn len(&self) -> usize
        ensures { result ≡ length self.now.parts }
    {
        self.parts.len()
    }

    /// How many versions the parts have together.
    pub fn version_count(&self) -> u64
        requires { length (versions_in (group_of self.now.parts)) < 2 ^ 64 }
        ensures { result ≡ length (versions_in (group_of self.now.parts)) }
    {
        let mut count = 0;
        // `count` is how many versions the parts so far have.
        for part in &self.parts {
            count += part.nodes.len();
        }
        count
    }

    // Where a member's part is, if it has one.
    fn place_of(&self, member: u32) -> Option<usize>
        ensures { result ≡ position_from (λ part. part.member == member) 0 self.now.parts }
    {
        self.parts.iter().position(|part| part.member == member)
    }
}
