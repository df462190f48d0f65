//! Canonical texts are read back. The function here is a law: its clause is all of it.
ghost use Rattle.std.specs.Prelude.{◌≡◌, Ok};
ghost use Rattle.fw_model.specs.declared.rich.Rich.{Rich};
ghost use Rattle.fw_rich.specs.Canonical.{canon};
ghost use Rattle.fw_rich.specs.Rich.{rich_text};
ghost use Rattle.fw_rich_law.specs.Values.{HasValues};
ghost use Rattle.fw_valid.specs.Riches.{IsRich};

use fw_addr::{
    printed_addresses_are_read, printed_hardware_addresses_are_read, printed_nets_are_read,
    printed_ports_are_read, printed_protocols_are_read,
};
use fw_text::decimal_is_read;

/// The canonical text of each rule whose values are in their ranges, and whose parts go together, is read as that rule. So
/// it is the text of no other one.
pub fn canonical_texts_are_read()
    ensures read { (rule : Rich) → HasValues rule → IsRich rule → rich_text (canon rule) ≡ Ok rule }
    ensures only { (rule other : Rich) → HasValues rule → IsRich rule → HasValues other → IsRich other → canon rule ≡ canon other → rule ≡ other }
{
    decimal_is_read();
    printed_ports_are_read();
    printed_protocols_are_read();
    printed_hardware_addresses_are_read();
    printed_addresses_are_read();
    printed_nets_are_read();
}
