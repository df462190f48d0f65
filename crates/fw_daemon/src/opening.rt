//! How a daemon begins.
ghost use Rattle.std.specs.Prelude.{◌≡◌, ◌≤◌, ◌<◌, ◌^◌, None, Some, IfOk, IfErr, IfSome, IsSome, MatchResult, option_map};
ghost use Rattle.fw_daemon.specs.Opening.{IsBad, IsBadText, IsBegun, IsInstalled, IsLoaded, IsNotBegun, IsNotLoaded};
ghost use Rattle.fw_daemon.specs.declared.opening.OpenError.TheVariants as refused;
ghost use Rattle.fw_daemon.specs.Outside.{Holds, Says};
ghost use Rattle.fw_history.specs.History.{highest_limit};
ghost use Rattle.fw_valid.specs.Valid.{IsValid};
ghost use Rattle.nf_kernel.specs.Installed.{Kernel, with_staged};
ghost use Rattle.nf_kernel.specs.declared.kernel.Ready.{Ready as ReadyValue};

use crate::installing::stage;
use fw_base::Memory;
use fw_history::History;
use fw_keeper::{KeepError, Keeper};
use fw_model::Config;
use fw_restore::{ConfigError, config_from_text};
use fw_service::built_in_config;
use fw_valid::the_built_in_configuration_is_valid;
use nf_goal::Compiler;
use nf_kernel::Backend;
use std::alloc::Global;

/// Why a daemon can't begin.
#[derive(Debug, Drop)]
pub enum OpenError {
    /// The text of the permanent settings couldn't be loaded.
    StoreFault,
    /// It isn't accepted, for its first fault.
    BadConfig(ConfigError),
    /// The kernel didn't take the ruleset.
    NotInstalled,
    Memory,
}

impl From<Memory> for OpenError {
    ghost use Rattle.fw_daemon.specs.declared.opening.OpenError.TheVariants.{Memory as OutOfMemory};

    ghost from_gives = { λ _ error. error ≡ OutOfMemory };

    fn from(_error: Memory) -> OpenError {
        OpenError::Memory
    }
}

/// The text that a keeper holds; None where there is none.
///
/// Refuses StoreFault where the load failed, and Memory.
pub fn load<K: Keeper>(alloc: Global, keeper: &mut K) -> Result<Option<Vec<u8>>, OpenError>
    requires { (K.kept keeper.old).calls < 2 ^ 62 }
    ensures loaded { IsLoaded (K.kept keeper.old) (K.kept keeper.new) result }
    ensures given { IfSome (K.kept keeper.old).held (λ held. IfOk result (λ text. option_map (λ bytes. bytes.items) text ≡ held)) }
    ensures refused { IfErr result IsNotLoaded }
{
    match keeper.load(alloc) {
        Ok(text) => Ok(text),
        Err(KeepError::Failed) => Err(OpenError::StoreFault),
        Err(KeepError::Memory) => Err(OpenError::Memory),
    }
}

/// The permanent settings that a text says.
fn config_of(alloc: Global, text: &[u8]) -> Result<Config, OpenError>
    ensures { MatchResult result (λ config. Says text.now config × IsValid config) (IsBadText text.now) }
{
    match config_from_text(alloc, text) {
        Ok(config) => Ok(config),
        Err(ConfigError::Memory) => Err(OpenError::Memory),
        Err(error) => Err(OpenError::BadConfig(error)),
    }
}

/// The permanent settings that a text says; without one the built-in ones.
///
/// Refuses BadConfig with the first fault of a text that isn't accepted, and Memory.
pub fn first_config(alloc: Global, text: Option<Vec<u8>>) -> Result<Config, OpenError>
    ensures holds { MatchResult result (Holds (option_map (λ bytes. bytes.items) text)) (IsBad (option_map (λ bytes. bytes.items) text)) }
    ensures valid { IfOk result IsValid }
{
    the_built_in_configuration_is_valid();
    match text {
        Some(text) => config_of(alloc, text.as_slice()),
        None => Ok(built_in_config(alloc)?),
    }
}

/// Installs what is staged.
///
/// Refuses NotInstalled, where the kernel failed.
fn install<B: Backend>(backend: &mut B) -> Result<(), OpenError>
    requires staged { IsSome (B.kernel backend.old).staged }
    requires asked { (B.kernel backend.old).asked < 2 ^ 62 }
    ensures installed { (ready : ReadyValue) (before : Kernel) → B.kernel backend.old ≡ with_staged (Some ready) before → IsInstalled ready.after before (B.kernel backend.new) result }
    ensures refused { IfErr result (λ why. why ≡ refused.NotInstalled) }
{
    match backend.commit() {
        Ok(()) => Ok(()),
        Err(_) => Err(OpenError::NotInstalled),
    }
}

/// The history that begins with what a keeper holds, whose ruleset is installed.
///
/// Refuses StoreFault where the load failed, BadConfig with the first fault of a text that isn't accepted, NotInstalled where the kernel
/// failed, and Memory. What was installed and what was held stay.
pub fn begin<B: Backend, K: Keeper, C: Compiler>(
    alloc: Global,
    backend: &mut B,
    keeper: &mut K,
    compiler: &C,
    limit: u64,
) -> Result<History, OpenError>
    requires staged { (B.kernel backend.old).staged ≡ None }
    requires asked { (B.kernel backend.old).asked < 2 ^ 62 }
    requires calls { (K.kept keeper.old).calls < 2 ^ 62 }
    requires limit { limit ≤ highest_limit }
    ensures begun { IfOk result (IsBegun (C.makes compiler.now) (B.kernel backend.old) (B.kernel backend.new) (K.kept keeper.old) (K.kept keeper.new) limit) }
    ensures refused { IfErr result (IsNotBegun (B.kernel backend.old) (B.kernel backend.new) (K.kept keeper.old) (K.kept keeper.new)) }
{
    let text = load(alloc, keeper)?;
    let first = first_config(alloc, text)?;
    let history = History::begin(alloc, first, limit)?;
    stage(alloc, backend, compiler, &history.settings().runtime)?;
    match install(backend) {
        Ok(()) => Ok(history),
        Err(why) => Err(why),
    }
}
