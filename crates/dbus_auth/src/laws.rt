//! Laws of the protocol, each the contract of a call that does nothing.

ghost use Rattle.std.specs.Prelude.{◌≡◌, ◌≤◌, ℕ, List, ◌↔◌, ◌⊎◌};
ghost use Rattle.dbus_auth.specs.Runs.{after, answered, Rejects, rejections, start};
ghost use Rattle.dbus_auth.specs.declared.answer.AuthAnswer.TheVariants.{Ended as the_end};
ghost use Rattle.dbus_auth.specs.declared.answer.AuthEnd.TheVariants.{Rejections as ten_rejections};
ghost use Rattle.dbus_auth.specs.declared.answer.Stage.TheVariants.{Ended as ended_stage};

/// Over all the lines of a connection, in any order: it rejects nine of them at most and goes on, and the tenth that
/// it rejects ends it.
pub fn the_tenth_rejection_ends()
    ensures nine { (lines : List (List ℕ)) → rejections lines ≤ 9 }
    // A line is answered by that end where the connection had ended so, or rejected nine lines and rejects this one.
    ensures tenth { (lines : List (List ℕ)) (line : List ℕ) → (answered lines line ≡ the_end ten_rejections)
        ↔ (((after start lines).stage ≡ ended_stage ten_rejections) ⊎ ((rejections lines ≡ 9) × Rejects (after start lines).stage line)) }
{}
