//! What is written of the permanent settings is read back. The function here is a law: its clause is all of it.
ghost use Rattle.std.specs.Prelude.{◌≡◌, ℕ, List, Ok, Some, IsUtf8};
ghost use Rattle.fw_load.specs.Objects.{config};
ghost use Rattle.fw_model.specs.declared.config.Config.{Config};
ghost use Rattle.fw_restore.specs.Reads.{Reads};
ghost use Rattle.fw_restore_law.specs.Ranges.{IsInRange};
ghost use Rattle.fw_store.specs.Objects.{config_data};
ghost use Rattle.fw_valid.specs.Valid.{IsValid};
ghost use Rattle.serde_json.specs.Read.{read};

use fw_addr::{
    printed_addresses_are_read, printed_hardware_addresses_are_read, printed_nets_are_read,
    printed_ports_are_read, printed_protocols_are_read,
};
use fw_rich_law::canonical_texts_are_read;
use fw_text::decimal_is_read;

/// The JSON value that stands for a valid configuration, whose values are in their ranges, says that configuration. So does a text in UTF-8
/// that is read as that value, as `config_to_text` of `fw_store` writes it.
pub fn written_settings_are_read()
    ensures said { (written : Config) → IsInRange written → IsValid written → config (config_data written) ≡ Ok written }
    ensures reads { (text : List ℕ) (written : Config) → IsUtf8 text → read text ≡ Some (config_data written) → IsInRange written → IsValid written → Reads text written }
{
    decimal_is_read();
    printed_ports_are_read();
    printed_protocols_are_read();
    printed_hardware_addresses_are_read();
    printed_addresses_are_read();
    printed_nets_are_read();
    canonical_texts_are_read();
}
