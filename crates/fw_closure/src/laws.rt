//! How long chains of includes are. The function here is a law: its clause is all of it.
ghost use Rattle.std.specs.Prelude.{ℕ, ◌↔◌, List, IsTrue};
ghost use Rattle.fw_closure.specs.Includes.{Reaches, reaches};
ghost use Rattle.fw_model.specs.declared.service.Service.{Service};

/// Where a chain of includes leads from a name to a name, one does that has no more includes than there are services.
pub fn chains_are_short()
    ensures { (services : List Service) (from to : List ℕ) → IsTrue (reaches services from to) ↔ Reaches services from to }
{}
