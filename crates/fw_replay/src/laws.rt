//! One entry more, and what is done of a proposal.
ghost use Rattle.std.specs.Prelude.{◌≡◌, [], ◌∷◌, ◌++◌, List};
ghost use Rattle.fw_act.specs.Acts.{Answered};
ghost use Rattle.fw_calls.specs.declared.applied.Applied.{Applied};
ghost use Rattle.fw_calls.specs.declared.event.Entry.{Entry};
ghost use Rattle.fw_proposals.specs.Proposals.{Proposes};
ghost use Rattle.fw_replay.specs.Legal.{IsLegal, Legal};
ghost use Rattle.fw_replay.specs.Replay.{played, replay, replies_of, settled_as, signals_of};
ghost use Rattle.fw_settings.specs.Settling.{settled};
ghost use Rattle.fw_settings.specs.declared.proposal.Proposal.{Proposal};
ghost use Rattle.fw_settings.specs.declared.settings.Settings.{Settings};

/// A journal with one entry more leaves what the entry leaves of the settings before it, tells its signals behind those of the others, and is
/// legal where the entry is.
pub fn journal_grows()
    ensures settings { (first : Settings) (entries : List Entry) (entry : Entry)
        → replay first (entries ++ entry ∷ []) ≡ (played (replay first entries) entry).settings }
    ensures signals { (first : Settings) (entries : List Entry) (entry : Entry)
        → signals_of first (entries ++ entry ∷ []) ≡ signals_of first entries ++ (played (replay first entries) entry).signals ∷ [] }
    ensures replies { (first : Settings) (entries : List Entry) (entry : Entry)
        → replies_of first (entries ++ entry ∷ []) ≡ replies_of first entries ++ (played (replay first entries) entry).reply ∷ [] }
    ensures legal { (first : Settings) (entries : List Entry) (entry : Entry)
        → Legal first entries → IsLegal (replay first entries) entries entry → Legal first (entries ++ entry ∷ []) }
{}

/// What is done of a proposal is what is said of its event.
pub fn settled_as_proposed()
    ensures { (settings : Settings) (done : Answered Settings) (proposal : Proposal) (save commit : Applied)
        → Proposes settings done proposal → settled settings proposal save commit ≡ settled_as settings done save commit }
{}
