//! Whether two settings are one.
ghost use Rattle.std.specs.Prelude.{◌≡◌, ◌↔◌, IsTrue};
ghost use Rattle.fw_timed.specs.Timers.{same_setting};

use fw_model::Setting;

/// Whether two settings are one. They are compared as values, so that the ports `80` and `80-80` are one.
pub fn is_same(one: &Setting, other: &Setting) -> bool
    ensures same { result ≡ same_setting one.now other.now }
    ensures value { IsTrue result ↔ (one.now ≡ other.now) }
{
    one == other
}
