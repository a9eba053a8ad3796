//! The nodes that come after a node.

ghost use Rattle.std.specs.Prelude.{◌≡◌, ◌++◌, [], MatchOption};
ghost use Rattle.std.specs.Option.{option_copied};
ghost use Rattle.table_nodes.specs.Following.{nothing};
ghost use Rattle.table_nodes.specs.Nodes.{versions_on};

use crate::node::{Node, Nodes};
use std::marker::Model;
use std::mem;
use std::mem::size_of;

// Two links, each of which may be none, would take eight bytes more.
const _: () = prove!(size_of::<Links>() <= 24);

/// The nodes after a node: its children, which are right after it, and its next ones, which come after those. Contracts
/// see the versions of both.
#[cycle(nodes)]
pub(crate) struct Links {
    shape: Shape,
}

/// Which of both there are. With children there is the rank of the node: how high the tree is whose root it is, less
/// one. It is for speed alone.
#[cycle(nodes)]
enum Shape {
    /// It has no children.
    Next(Nodes),
    /// Nothing comes after its children.
    Children {
        rank: u32,
        children: Box<Node>,
    },
    /// It has children, and next ones.
    Both {
        rank: u32,
        children: Box<Node>,
        next: Box<Node>,
    },
}

impl Model for Links {
    ghost use Rattle.std.specs.Prelude.{◌+◌, ◌*◌, length};
    ghost use Rattle.table_nodes.specs.Codes.{following_code};
    ghost use Rattle.table_nodes.specs.Following.{Following};

    ghost Value = { Following };

    ghost coded = { following_code };

    ghost use Rattle.table_nodes.specs.Links.{following_of};

    ghost view = { λ l. following_of l.shape };

    ghost size = { λ f. 2 * (length f.children + length f.next) + 1 };

    ghost use Rattle.std.proofs.Common.{arith, length-append};

    ghost size_decreases = { λ l h. Prim.grind (arith, length-append) };
}

impl Drop for Links {
    // As lists, whose nodes are dropped one after another.
    fn drop(self) {
        let _lists = self.into_lists();
    }
}

impl Links {
    /// No nodes. This takes no memory.
    pub(crate) fn none() -> Links
        ensures { result ≡ nothing }
    {
        Links::to(Nodes::new())
    }

    /// These next ones, and no children.
    pub(crate) fn to(next: Nodes) -> Links
        ensures { result ≡ record { children = []; next = next } }
    {
        Links {
            shape: Shape::Next(next),
        }
    }

    /// These children of a node that has a rank, and these next ones.
    pub(crate) fn of(rank: u32, children: Nodes, next: Nodes) -> Links
        ensures { result ≡ record { children = children; next = next } }
    {
        let Some(children) = children.into_first() else {
            return Links::to(next);
        };
        let shape = match next.into_first() {
            None => Shape::Children { rank, children },
            Some(next) => Shape::Both {
                rank,
                children,
                next,
            },
        };
        Links { shape }
    }

    /// The children, if there are any, and the next ones.
    pub(crate) fn into_lists(self) -> (Option<Nodes>, Nodes)
        ensures children { MatchOption result.0 (self.children ≡ []) (λ children. children ≡ self.children) }
        ensures next { result.1 ≡ self.next }
    {
        match self {
            Links {
                shape: Shape::Next(next),
            } => (None, next),
            Links {
                shape: Shape::Children { rank: _, children },
            } => (Some(Nodes::begun_by(children)), Nodes::new()),
            Links {
                shape: Shape::Both {
                    rank: _,
                    children,
                    next,
                },
            } => (Some(Nodes::begun_by(children)), Nodes::begun_by(next)),
        }
    }

    /// The rank of the node.
    pub(crate) fn rank(&self) -> u32 {
        match &self.shape {
            Shape::Next(_) => 0,
            Shape::Children { rank, .. } => *rank,
            Shape::Both { rank, .. } => *rank,
        }
    }

    /// The first child.
    pub(crate) fn children(&self) -> Option<&Node>
        ensures { versions_on (option_copied result) ≡ self.now.children }
    {
        match &self.shape {
            Shape::Next(_) => None,
            Shape::Children { children, .. } => Some(children),
            Shape::Both { children, .. } => Some(children),
        }
    }

    /// The first next one.
    pub(crate) fn next(&self) -> Option<&Node>
        ensures { versions_on (option_copied result) ≡ self.now.next }
    {
        match &self.shape {
            Shape::Next(next) => next.first(),
            Shape::Children { .. } => None,
            Shape::Both { next, .. } => Some(next),
        }
    }

    /// Takes the next ones out.
    pub(crate) fn take_next(&mut self) -> Nodes
        ensures taken { result ≡ self.old.next }
        ensures left { self.new ≡ record self.old { next = [] } }
    {
        if let Shape::Next(next) = &mut self.shape {
            return mem::replace(next, Nodes::new());
        }
        let rank = self.rank();
        let (children, next) = mem::replace(self, Links::none()).into_lists();
        if let Some(children) = children {
            *self = Links::of(rank, children, Nodes::new());
        }
        next
    }

    /// Puts other next ones in place of its own.
    pub(crate) fn set_next(&mut self, next: Nodes)
        ensures { self.new ≡ record self.old { next = next } }
    {
        if let Shape::Next(own) = &mut self.shape {
            own.first = next.into_first();
            return;
        }
        let rank = self.rank();
        let (children, _old) = mem::replace(self, Links::none()).into_lists();
        *self = match children {
            Some(children) => Links::of(rank, children, next),
            None => Links::to(next),
        };
    }

    /// Takes the nodes of a list in place of its own. What the list has then is to be dropped.
    pub(crate) fn replace_by(&mut self, list: &mut Nodes)
        ensures { self.new ≡ record { children = []; next = list.old } }
    {
        match &mut self.shape {
            // An assignment would look for nodes to drop, though there are hardly ever any.
            Shape::Next(next) => mem::swap(next, list),
            _ => self.replace_all_by(list),
        }
    }

    /// The same, where it has children.
    #[cold]
    #[inline(never)]
    fn replace_all_by(&mut self, list: &mut Nodes)
        ensures { self.new ≡ record { children = []; next = list.old } }
    {
        *self = Links::to(mem::replace(list, Nodes::new()));
    }

    /// Moves all of them into a list that has no nodes.
    pub(crate) fn move_to(&mut self, list: &mut Nodes)
        requires { list.old ≡ [] }
        ensures { list.new ≡ self.old.children ++ self.old.next }
    {
        match &mut self.shape {
            Shape::Next(next) => mem::swap(list, next),
            _ => *list = mem::replace(self, Links::none()).into_list(),
        }
    }

    /// All of them, one after another.
    #[cold]
    #[inline(never)]
    fn into_list(self) -> Nodes
        ensures { result ≡ self.children ++ self.next }
    {
        let (children, next) = self.into_lists();
        match children {
            Some(mut children) => {
                children.append(next);
                children
            }
            None => next,
        }
    }
}
