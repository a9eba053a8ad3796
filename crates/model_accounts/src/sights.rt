//! Laws of what a client sees.

ghost use Rattle.std.specs.Prelude.{◌≡◌, ◌≤◌, List, ◌++◌, length};
ghost use mathlib.Core.List.{IsPrefix};
ghost use Rattle.std.specs.List.{AllByRecursion};
ghost use Rattle.model_base.specs.History.{IsHistory, last_sequence, map_over};
ghost use Rattle.model_base.specs.Replies.{IsLogRead};
ghost use Rattle.model_base.specs.Trace.{Trace};
ghost use Rattle.table_rule.specs.declared.content.MemberVersions.{MemberVersions};
ghost use Rattle.table_rule.specs.declared.content.Version.{Version};
ghost use Rattle.table_rule.specs.Histories.{Begins, Images, versions_of, map_of as map_of_versions};
ghost use Rattle.model_accounts.specs.Versions.{versions_of_entry};
ghost use Rattle.model_accounts.specs.Sights.{Sight, WasLogged, last_seen, map_seen, Sees, Saw};

/// What was seen earlier is no more than what is seen later. It may have been seen of each trace of which the later
/// sight may.
pub fn earlier_sights()
    ensures same { (v : Sight) → Sees v v }
    ensures on { (u v w : Sight) → Sees u v → Sees v w → Sees u w }
    ensures rises { (v w : Sight) → Sees v w → last_seen v ≤ last_seen w }
    ensures saw { (v w : Sight) → Sees v w → (trace : Trace) → Saw w trace → Saw v trace }
{}

/// If the groups that a client has seen published are the first ones of all that were published, it may have seen them
/// of each trace whose entries made all those groups, whose controller's calls begin with the ones that it saw, in
/// which its reads of the log were right, and whose calls of the log writer wrote its batches.
pub fn sights_of_the_table()
    ensures saw { (trace : Trace) (history : List (List MemberVersions))
        → Images versions_of_entry trace.entries history
        → (sight : Sight) → sight.start ≡ trace.start → sight.opening ≡ trace.opening
        → Begins sight.published history
        → IsPrefix sight.controller_calls trace.controller_calls
        → AllByRecursion (IsLogRead trace) sight.log_reads → sight.logged ≤ length trace.log_calls
        → AllByRecursion (WasLogged trace.log_calls) sight.batches → Saw sight trace }
    // if some versions made the map before the first group, then these and the published ones make the map that was
    // seen
    ensures map { (sight : Sight) (before : List Version) → sight.opening ≡ map_of_versions before
        → map_of_versions (before ++ versions_of sight.published) ≡ map_seen sight }
{}

/// What was seen published was made by the first entries of the trace: its last sequence and its map are theirs.
pub fn sights_of_traces()
    ensures ends { (sight : Sight) (trace : Trace) → IsHistory trace.start trace.entries → (saw : Saw sight trace)
        → last_seen sight ≡ last_sequence trace.start saw.entries }
    // What is read is read of the map that the run began with, and of all that was seen published.
    ensures map { (sight : Sight) (trace : Trace) → IsHistory trace.start trace.entries → (saw : Saw sight trace)
        → map_seen sight ≡ map_over trace.opening saw.entries }
{}
