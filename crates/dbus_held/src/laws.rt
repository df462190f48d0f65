//! Laws of values that are held, each the contract of a call that does nothing.

ghost use Rattle.std.specs.Prelude.{◌≡◌, ◌%◌, ℕ, List, Ok};
ghost use Rattle.dbus_signature.specs.declared.kind.Kind.{Kind};
ghost use Rattle.dbus_wire.specs.declared.value.Endian.{Endian};
ghost use Rattle.dbus_wire.specs.declared.value.Value.{Value};
ghost use Rattle.dbus_wire.specs.Fits.{Fits};
ghost use Rattle.dbus_wire.specs.Spelling.{spelling};
ghost use Rattle.dbus_wire.specs.Values.{max_open, value_at};
ghost use Rattle.dbus_held.specs.Ends.{forget, value_end};

/// Passing over a value ends where reading it ends, and fails at the same place.
pub fn values_end_where_they_are_read()
    ensures { (endian : Endian) (room : ℕ) (kind : Kind) (at : ℕ) (text : List ℕ) → value_end endian room kind at text ≡ forget (value_at endian room kind at text) }
{}

/// A value that has a spelling at an offset has the same one at each offset that is eights apart from it.
pub fn eights_apart_is_the_same()
    ensures { (endian : Endian) (kind : Kind) (at to : ℕ) (value : Value) → at % 8 ≡ to % 8 → Fits endian max_open kind at value → Fits endian max_open kind to value × (spelling endian value at ≡ spelling endian value to) }
{}
