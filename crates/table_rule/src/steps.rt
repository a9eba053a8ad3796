//! The named steps, and what each tells its caller. The head of the crate has a table of them.
ghost use Rattle.std.specs.Prelude.{[]};
ghost use Rattle.table_rule.specs.Seats.{after_close};
ghost use Rattle.table_rule.specs.Steps.{after_learn, after_lock, after_unlock, after_add, after_launch, after_empty, after_give, after_take, after_settle, after_count, after_publish, after_await};

use crate::content::Content;
use crate::rule::Versioned;
use crate::view::TableView;
use atomic_table::Play;
use std::marker::{Brand, PhantomData};

/// A client's load of LAST.
pub struct Learn;

impl<ShardTree, NodeList> Play<Content<ShardTree, NodeList>, TableView> for Learn {
    ghost then = { after_learn };
}

/// The compare-exchange of a lock.
pub struct LockShard;

impl<ShardTree: Versioned, NodeList> Play<Content<ShardTree, NodeList>, TableView> for LockShard {
    ghost then = { after_lock ShardTree.versions };
}

/// The store that unlocks a shard whose tree is as it was.
pub struct UnlockShard;

impl<ShardTree, NodeList> Play<Content<ShardTree, NodeList>, TableView> for UnlockShard {
    ghost then = { after_unlock };
}

/// The versions that a member adds to a tree.
pub trait VersionPlan {
    ghost use Rattle.std.specs.Prelude.{List};
    ghost use Rattle.table_rule.specs.declared.content.Version.{Version};

    ghost versions: { List Version };
}

impl VersionPlan for Brand {
    ghost versions = { [] };
}

/// The store that unlocks a shard to whose tree versions of a member's part were added.
pub struct AddVersions<Plan> {
    marker: PhantomData<Plan>,
}

impl<ShardTree, NodeList, Plan: VersionPlan> Play<Content<ShardTree, NodeList>, TableView>
    for AddVersions<Plan> {
    ghost then = { after_add Plan.versions };
}

/// The group that a launch is for.
pub trait GroupPlan {
    ghost use Rattle.std.specs.Prelude.{List};
    ghost use Rattle.table_rule.specs.declared.content.MemberVersions.{MemberVersions};

    ghost group: { List MemberVersions };
}

impl GroupPlan for Brand {
    ghost group = { [] };
}

/// The store of RUNNING, by a client that has the turn.
pub struct Launch<Group> {
    marker: PhantomData<Group>,
}

impl<ShardTree, NodeList, Group: GroupPlan> Play<Content<ShardTree, NodeList>, TableView>
    for Launch<Group> {
    ghost then = { after_launch Group.group };
}

/// The turn's load of a member's RUN.
pub struct Empty;

impl<ShardTree, NodeList> Play<Content<ShardTree, NodeList>, TableView> for Empty {
    ghost then = { after_empty };
}

/// The turn's store of a member's RUN.
pub struct Give;

impl<ShardTree, NodeList> Play<Content<ShardTree, NodeList>, TableView> for Give {
    ghost then = { after_give };
}

/// A member's load of its RUN.
pub struct Take;

impl<ShardTree, NodeList: Versioned> Play<Content<ShardTree, NodeList>, TableView> for Take {
    ghost then = { after_take NodeList.versions };
}

/// A member's store of its RUN.
pub struct Settle;

impl<ShardTree, NodeList> Play<Content<ShardTree, NodeList>, TableView> for Settle {
    ghost then = { after_settle };
}

/// The fetch-sub of RUNNING.
pub struct Count;

impl<ShardTree, NodeList> Play<Content<ShardTree, NodeList>, TableView> for Count {
    ghost then = { after_count };
}

/// The store of LAST.
pub struct Publish;

impl<ShardTree, NodeList> Play<Content<ShardTree, NodeList>, TableView> for Publish {
    ghost then = { after_publish };
}

/// The turn's load of LAST.
pub struct Await;

impl<ShardTree, NodeList> Play<Content<ShardTree, NodeList>, TableView> for Await {
    ghost then = { after_await };
}

/// The last load of LAST, when all seats are joined.
pub struct Close;

impl<ShardTree, NodeList> Play<Content<ShardTree, NodeList>, TableView> for Close {
    ghost then = { after_close };
}
