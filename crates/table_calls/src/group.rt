//! The parts of a group that will be launched.
ghost use Rattle.std.specs.Prelude.{◌≡◌, ◌<◌, ◌^◌, [], ◌∷◌, length, MatchOption};
ghost use Rattle.table_rule.specs.Histories.{versions_in};

use table_rule::Versioned;

/// The members of a group with their nodes, each member once.
pub trait GroupParts<NodeList: Versioned> {
    ghost use Rattle.std.specs.Prelude.{ℕ, List};
    ghost use Rattle.table_rule.specs.declared.content.MemberVersions.{MemberVersions};

    ghost parts: { Self → List MemberVersions };

    /// The number of members for which there is room.
    ghost room: { Self → ℕ };

    /// How many members there are.
    fn len(&self) -> usize
        ensures { result ≡ length (Self.parts self.now) };

    /// How many versions the members have together.
    fn version_count(&self) -> u64
        requires { length (versions_in (Self.parts self.now)) < 2 ^ 64 }
        ensures { result ≡ length (versions_in (Self.parts self.now)) };

    /// Takes the first member out, with its nodes.
    fn pop(&mut self) -> Option<(u64, NodeList)>
        ensures room { Self.room self.new ≡ Self.room self.old }
        ensures first { MatchOption result ((Self.parts self.old ≡ [])
            × (Self.parts self.new ≡ [])) (λ taken. Self.parts self.old
            ≡ (record { member = taken.0; versions = NodeList.versions taken.1 }) ∷ Self.parts self.new) };
}
