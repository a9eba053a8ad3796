//! A client's calls of the write controller. Before each that takes a token or gives one back, the client reads up to
//! which sequence it has seen what is published, and says that. After each, but not at its end, it sees all that was
//! said before.

ghost use Rattle.std.specs.Prelude.{◌≡◌, ◌≤◌, ℕ, None, true, false, OnOk, OnErr};
ghost use Rattle.model_base.specs.Controller as controller;
ghost use Rattle.model_base.specs.Tokens.{holds_stop, holds_slow};
ghost use Rattle.engine_controller.specs.Passes.{client_of, seen_by, EndsWith};
ghost use Rattle.model_accounts.specs.Accounts.{Keeps, Asks, GivesBack};
ghost use Rattle.model_accounts.specs.Sights.{last_seen};
ghost use Rattle.engine_groups.specs.Clients.{IsClientOf, account_in};

use crate::engine::{EngineClient, GroupEngine};
use base_devices::Clock;
use engine_calls::{Gate, Held, NotHeld};
use log_writer::GroupLog;
use std::rt;
use std::sync::Wait;
use table_calls::Table;
use table_nodes::{Nodes, Parts};

impl<
    Log: GroupLog,
    Versions: Table<Nodes, Parts>,
    Time: Clock + Drop,
    Watch: Gate + Drop,
> GroupEngine<Log, Versions, Time, Watch> {
    /// Says up to which sequence the client has seen what is published.
    fn say<R: Wait + rt::Clock>(
        &self,
        rt: &R,
        client: &mut EngineClient<Log, Versions, Time>,
    ) -> u64
        requires { IsClientOf Versions.Table self.now client.old }
        ensures belongs { IsClientOf Versions.Table self.now client.new }
        ensures keeps { Keeps (account_in Versions.Table client.old) (account_in Versions.Table client.new) }
        ensures had { last_seen (account_in Versions.Table client.old).seen ≤ result }
        ensures has { result ≤ last_seen (account_in Versions.Table client.new).seen }
        ensures said { EndsWith (client_of client.old.pass) (seen_by client.old.pass) (controller.say result) None
            (seen_by client.new.pass) }
    {
        let shown = self.table.last(&mut client.seat);
        self.controller.say(rt, &mut client.pass, shown);
        shown
    }

    /// Lets the client see what is published up to where calls said, up to its newest token call. It never waits: each
    /// sequence that is said was published before.
    fn hear<R: Wait + rt::Clock>(&self, rt: &R, client: &mut EngineClient<Log, Versions, Time>)
        requires { IsClientOf Versions.Table self.now client.old }
        ensures belongs { IsClientOf Versions.Table self.now client.new }
        ensures keeps { Keeps (account_in Versions.Table client.old) (account_in Versions.Table client.new) }
        ensures heard { (most : ℕ) × EndsWith (client_of client.old.pass) (seen_by client.old.pass)
            (controller.hear most) None (seen_by client.new.pass)
            × (most ≤ last_seen (account_in Versions.Table client.new).seen) }
    {
        let most = self.controller.gather(&mut client.pass);
        self.table.await_seen(rt, &mut client.seat, most);
        self.controller.hear(rt, &mut client.pass, most);
    }

    /// Takes the client's stop token. While anybody holds one, all writes wait, except that those that may not wait,
    /// and those of a client that holds one itself, are refused.
    pub fn stop<R: Wait + rt::Clock>(
        &self,
        rt: &R,
        client: &mut EngineClient<Log, Versions, Time>,
    ) -> Result<(), Held>
        requires { IsClientOf Versions.Table self.now client.old }
        ensures belongs { IsClientOf Versions.Table self.now client.new }
        ensures done { OnOk result ((holds_stop (account_in Versions.Table client.old).asked ≡ false)
            × (shown : ℕ) × Asks (account_in Versions.Table client.old) (controller.stop shown)
            (account_in Versions.Table client.new)) }
        ensures held { OnErr result ((holds_stop (account_in Versions.Table client.old).asked ≡ true)
            × Keeps (account_in Versions.Table client.old) (account_in Versions.Table client.new)) }
    {
        let shown = self.say(rt, client);
        self.controller.stop(rt, &mut client.pass, shown)?;
        self.hear(rt, client);
        Ok(())
    }

    /// Gives the client's stop token back.
    pub fn unstop<R: Wait + rt::Clock>(
        &self,
        rt: &R,
        client: &mut EngineClient<Log, Versions, Time>,
    ) -> Result<(), NotHeld>
        requires { IsClientOf Versions.Table self.now client.old }
        ensures belongs { IsClientOf Versions.Table self.now client.new }
        ensures done { OnOk result ((holds_stop (account_in Versions.Table client.old).asked ≡ true)
            × (shown : ℕ) × Asks (account_in Versions.Table client.old) (controller.unstop shown)
            (account_in Versions.Table client.new)) }
        ensures not_held { OnErr result ((holds_stop (account_in Versions.Table client.old).asked ≡ false)
            × Keeps (account_in Versions.Table client.old) (account_in Versions.Table client.new)) }
    {
        let shown = self.say(rt, client);
        self.controller.unstop(rt, &mut client.pass, shown)?;
        self.hear(rt, client);
        Ok(())
    }

    /// Takes the client's slow token, with a rate in bytes a second. While anybody holds one, writes are slowed down.
    pub fn slow<R: Wait + rt::Clock>(
        &self,
        rt: &R,
        client: &mut EngineClient<Log, Versions, Time>,
        rate: u64,
    ) -> Result<(), Held>
        requires { IsClientOf Versions.Table self.now client.old }
        ensures belongs { IsClientOf Versions.Table self.now client.new }
        ensures done { OnOk result ((holds_slow (account_in Versions.Table client.old).asked ≡ false)
            × (shown : ℕ) × Asks (account_in Versions.Table client.old) (controller.slow rate shown)
            (account_in Versions.Table client.new)) }
        ensures held { OnErr result ((holds_slow (account_in Versions.Table client.old).asked ≡ true)
            × Keeps (account_in Versions.Table client.old) (account_in Versions.Table client.new)) }
    {
        let shown = self.say(rt, client);
        self.controller.slow(rt, &mut client.pass, rate, shown)?;
        self.hear(rt, client);
        Ok(())
    }

    /// Gives the client's slow token back.
    pub fn unslow<R: Wait + rt::Clock>(
        &self,
        rt: &R,
        client: &mut EngineClient<Log, Versions, Time>,
    ) -> Result<(), NotHeld>
        requires { IsClientOf Versions.Table self.now client.old }
        ensures belongs { IsClientOf Versions.Table self.now client.new }
        ensures done { OnOk result ((holds_slow (account_in Versions.Table client.old).asked ≡ true)
            × (shown : ℕ) × Asks (account_in Versions.Table client.old) (controller.unslow shown)
            (account_in Versions.Table client.new)) }
        ensures not_held { OnErr result ((holds_slow (account_in Versions.Table client.old).asked ≡ false)
            × Keeps (account_in Versions.Table client.old) (account_in Versions.Table client.new)) }
    {
        let shown = self.say(rt, client);
        self.controller.unslow(rt, &mut client.pass, shown)?;
        self.hear(rt, client);
        Ok(())
    }

    /// Gives back the tokens that the client holds, once it has said what it has seen.
    pub fn end<R: Wait + rt::Clock>(&self, rt: &R, client: &mut EngineClient<Log, Versions, Time>)
        requires { IsClientOf Versions.Table self.now client.old }
        ensures belongs { IsClientOf Versions.Table self.now client.new }
        ensures back { GivesBack (account_in Versions.Table client.old) (account_in Versions.Table client.new) }
    {
        let shown = self.say(rt, client);
        self.controller.end(rt, &mut client.pass, shown);
    }
}
