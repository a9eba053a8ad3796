//! What replies a leader may give, and who its members are.
ghost use Rattle.std.specs.Prelude.{◌≡◌, ℕ, ◌<◌, List, length, slice_index_or};
ghost use Rattle.line_rule.specs.declared.view.QueuedWriter.{QueuedWriter};
ghost use Rattle.line_rule.specs.Chain.{heads, Within};
ghost use Rattle.line_rule.specs.Members.{asks, pays};
ghost use Rattle.line_writers.specs.Roles.{firsts, IsMember};
ghost use Rattle.line_writers.specs.Groups.{Queue, Members};

/// A leader may leave with these replies: one to each client that asks, in the order of the requests.
pub fn replies_in_order<Request, Reply>()
    ensures { (own : QueuedWriter Request) (group : Queue Request) (replies : List (ℕ × Reply))
        → firsts replies ≡ firsts (asks own group)
        → (gs : Members Request Reply) × (p : Reply) × (heads gs ≡ group) × (replies ≡ pays own p gs) }
{}

/// Each client that gets a reply after the leader is another member of its group.
pub fn members_in_order<Request, Reply>()
    ensures { (n : ℕ) (own : QueuedWriter Request) (p : Reply) (gs : Members Request Reply) (i : ℕ)
        (default : ℕ × Reply)
        → Within n (heads gs) → 0 < i → i < length (pays own p gs)
        → IsMember n (slice_index_or (pays own p gs) i default).0 gs }
{}
