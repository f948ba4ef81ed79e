// What is configured, as the API takes it.
ghost use Rattle.std.specs.Prelude.{◌≡◌, IsOk, OnOk, OnErr, false, true};
ghost use Rattle.vm_config.specs.Changes.{default_config};
ghost use Rattle.api_rules.specs.Table.{changed, takes_memory};
ghost use Rattle.flat_machine.specs.Ready.{AreFitting, AreLinked, IsFitting, IsTaken};

use api_calls::ApiCall;
use api_rules::{Config, apply};
use std::alloc::{AllocError, Global};
use std::marker::Model;
use vm_config::{Drives, Interfaces};

/// What is configured, each part of which is as the API takes it. So it has from 1 to 32 harts, from 4 to 4,096 MiB of memory
/// and at most 16 devices, and a start of it comes to no bound of the machine.
#[derive(Drop)]
pub struct TakenConfig {
    config: Config,
}

impl Model for TakenConfig {
    ghost use Rattle.vm_config.specs.declared.config.Config.{Config};
    ghost use Rattle.flat_machine.specs.Ready.{IsTaken};

    ghost Value = { Config };

    ghost view = { λ t. t.config };

    ghost invariant = { λ t. IsTaken t.config };
}

impl TakenConfig {
    /// What a machine has before the first call.
    pub fn new(alloc: Global) -> TakenConfig
        ensures { result ≡ default_config }
    {
        TakenConfig {
            config: Config::new(alloc),
        }
    }

    /// This configuration, which is as the API takes it.
    pub fn of(config: Config) -> TakenConfig
        requires { IsTaken config }
        ensures { result ≡ config }
    {
        TakenConfig { config }
    }

    /// What is configured.
    pub fn get(&self) -> &Config
        ensures same { result.now ≡ self.now }
        ensures taken { IsTaken result.now }
    {
        &self.config
    }

    /// Takes what an accepted call changes, which leaves it as the API takes it. Only one drive or interface more takes memory. An `Err`
    /// changes nothing.
    pub fn apply(&mut self, call: ApiCall) -> Result<(), AllocError>
        requires { IsFitting self.old call }
        ensures succeeds { takes_memory call ≡ false → IsOk result }
        ensures ok { OnOk result (self.new ≡ changed self.old call) }
        ensures err { OnErr result (self.new ≡ self.old) }
    {
        apply(&mut self.config, call)
    }

    /// Takes the drives that a PUT of one leaves, which are as the API takes them.
    pub fn set_drives(&mut self, drives: Drives)
        requires { AreFitting drives self.old.interfaces self.old.vsock self.old.balloon self.old.entropy }
        ensures { self.new ≡ record self.old { drives = drives; configured = true } }
    {
        self.config.set_drives(drives);
    }

    /// Takes the interfaces that a PUT of one leaves, which are as the API takes them.
    pub fn set_interfaces(&mut self, interfaces: Interfaces)
        requires { AreLinked self.old.drives interfaces self.old.vsock self.old.balloon self.old.entropy self.old.mmds }
        ensures { self.new ≡ record self.old { interfaces = interfaces; configured = true } }
    {
        self.config.set_interfaces(interfaces);
    }
}
