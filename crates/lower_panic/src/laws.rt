//! A law of panic mode.
ghost use Rattle.lower_panic.specs.Laws.{PanicRulesCompile};

/// The ruleset of panic mode is sound, and drops every packet with its own mark and nothing else, as the way of packets in panic
/// mode says.
pub fn panic_rules_compile()
    ensures { PanicRulesCompile }
{}
