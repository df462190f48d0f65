//! The permanent settings as text, and what becomes of it.
ghost use Rattle.std.specs.Prelude.{◌≡◌, ◌<◌, ◌^◌, false, IfOk, IsOk, option_map};
ghost use Rattle.fw_daemon.specs.Outside.{IsSaved, IsTextFor};

use fw_base::Memory;
use fw_calls::Applied;
use fw_keeper::Keeper;
use fw_model::Config;
use fw_store::config_to_text;
use std::alloc::Global;

/// The text of the permanent settings, where it is to be saved.
///
/// Refuses for want of memory alone.
pub fn text_for(alloc: Global, needed: bool, permanent: &Config) -> Result<Option<Vec<u8>>, Memory>
    ensures idle { needed ≡ false → IsOk result }
    ensures text { IfOk result (λ text. IsTextFor needed permanent.now (option_map (λ bytes. bytes.items) text)) }
{
    if needed {
        Ok(Some(config_to_text(alloc, permanent)?))
    } else {
        Ok(None)
    }
}

/// Saves a text, if there is one. It takes no memory of its own.
pub fn save<K: Keeper>(keeper: &mut K, text: Option<Vec<u8>>) -> Applied
    requires { (K.kept keeper.old).calls < 2 ^ 62 }
    ensures { IsSaved (option_map (λ bytes. bytes.items) text) (K.kept keeper.old) (K.kept keeper.new) result }
{
    let Some(text) = text else {
        return Applied::Skipped;
    };
    match keeper.save(text) {
        Ok(()) => Applied::Done,
        Err(_) => Applied::Failed,
    }
}
