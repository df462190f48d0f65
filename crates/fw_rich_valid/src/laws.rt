//! What is read is a rule. The function here is a law: its clause is all of it.
ghost use Rattle.std.specs.Prelude.{◌≡◌, ℕ, List, Ok};
ghost use Rattle.fw_model.specs.declared.rich.Rich.{Rich};
ghost use Rattle.fw_rich.specs.Rich.{rich_text};
ghost use Rattle.fw_valid.specs.Riches.{IsRich};

/// The rule that a text says has parts that go together (firewalld.richlanguage(5)), as a valid configuration asks of each rule.
pub fn texts_say_rules()
    ensures { (text : List ℕ) (rule : Rich) → rich_text text ≡ Ok rule → IsRich rule }
{}
