//! Laws of streams, each the contract of a call that does nothing.

ghost use Rattle.std.specs.Prelude.{◌≡◌, ◌+◌, ◌-◌, ◌++◌, ◌∷◌, [], ℕ, List, length};
ghost use Rattle.dbus_msg.specs.declared.message.Message.{Message};
ghost use Rattle.dbus_msg.specs.Streams.{BadAt, Split};
ghost use Rattle.dbus_msg.specs.Written.{written, IsMessage};

/// A stream has the same messages and the same fault however it is cut into pieces.
pub fn pieces_make_no_difference()
    ensures split { (first piece rest left : List ℕ) (messages more : List Message) → Split first messages rest → Split (rest ++ piece) more left → Split (first ++ piece) (messages ++ more) left }
    ensures bad { (first piece rest : List ℕ) (messages more : List Message) (place : ℕ) → Split first messages rest → BadAt (rest ++ piece) more place
        → BadAt (first ++ piece) (messages ++ more) (place + (length first - length rest)) }
{}

/// Bytes are cut in one way alone, and what is cut to its end is refused nowhere.
pub fn a_stream_is_cut_in_one_way()
    ensures one { (bytes left right : List ℕ) (messages others : List Message) → Split bytes messages left → Split bytes others right → (messages ≡ others) × (left ≡ right) }
    ensures never { (bytes left : List ℕ) (messages others : List Message) (place : ℕ) → Split bytes messages left → BadAt bytes others place → ⊥ }
{}

/// A message that is written is the next one of a stream, whatever stands behind it, and the only one where nothing does.
pub fn written_comes_next()
    ensures split { (message : Message) (behind left : List ℕ) (more : List Message) → IsMessage message → Split behind more left → Split (written message ++ behind) (message ∷ more) left }
    ensures bad { (message : Message) (behind : List ℕ) (more : List Message) (place : ℕ) → IsMessage message → BadAt behind more place
        → BadAt (written message ++ behind) (message ∷ more) (place + length (written message)) }
    ensures alone { (message : Message) (left : List ℕ) (messages : List Message) → IsMessage message → Split (written message) messages left → (messages ≡ message ∷ []) × (left ≡ []) }
{}
