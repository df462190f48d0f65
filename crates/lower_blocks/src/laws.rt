//! A law of what is told.
ghost use Rattle.lower_blocks.specs.Needed.{ActingPoliciesAreTold};

/// The settings of policies that act on packets of some zones have chains.
pub fn acting_policies_are_told()
    ensures { ActingPoliciesAreTold }
{}
