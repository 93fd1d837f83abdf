//! What the target may do: worlds, histories, sessions and runs.
//!
//! The definitions stand in `specs/`; every contract above cites them. There is no code here: each
//! function is a law of the definitions, and says it in its contract.
#![tactic(auto)]

ghost use Rattle.std.specs.Prelude.{◌≡◌, ℕ, ◌≤◌, ◌⊎◌, not, true, [], Some};
ghost use Rattle.pr_words.specs.declared.nexus.Nexus.{Nexus};
ghost use Rattle.pr_words.specs.declared.code.Code.{Code};
ghost use Rattle.pr_words.specs.declared.code.TheConstants.{ILLEGAL_REQUEST};
ghost use Rattle.pr_grammar.specs.Standings.{Standing, is_registered};
ghost use Rattle.pr_model.specs.Registrants.{IsAscending, IsWellFormed};
ghost use Rattle.pr_model.specs.Acts.{Acted, Good, Bad, ReserveOut, acted, preempt};
ghost use Rattle.pr_model.specs.Cases.{Case, Applies, Preempts};
ghost use Rattle.pr_model.specs.Effects.{Rule, IsRule, Acts};
ghost use Rattle.pr_model.specs.Attentions.{is_attention};
ghost use Rattle.pr_model.specs.Examples.{Transfers, Conflicts, Marks, Steps, Replies};
ghost use Rattle.pr_model.specs.BlockLaws.{SparedStay, LastDecides};
ghost use Rattle.pr_model.specs.Sessions.{TurnsJoin};
ghost use Rattle.pr_model.specs.Laws.{AbortedIsFenced, AcceptedAreSaved, AnswersSettle, BytesWait, FreePass, HasOneOutcome, HoldersPass, KeepsSize, KeepsTelling, NothingInDoubt, LegalIsFenced, OnlyStepsMove, RefusalsChangeLittle, RegistrantsPass, RestoredIsKept};
ghost use Rattle.pr_model.specs.Keeping.{Kept, kept, same_kept, keeps_by, looks_same, same_reservation};

/// Of each PREEMPT exactly one case applies, and it has exactly one answer, which `preempt` is.
#[tactic(auto, using(crate::proofs::Cases::alone, crate::proofs::Cases::preempts, crate::proofs::Cases::one_answer))]
pub fn preempt_has_one_case()
    ensures alone { (s : Standing) (k : ℕ) (c d : Case) → Applies s k c → Applies s k d → c ≡ d }
    ensures some { (s : Standing) (n : Nexus) (scope kind k : ℕ)
        → Preempts s n scope kind k (preempt s n scope kind k) }
    ensures one { (s : Standing) (n : Nexus) (scope kind k : ℕ) (a : Acted)
        → Preempts s n scope kind k a → a ≡ preempt s n scope kind k }
{}

/// Of each PERSISTENT RESERVE OUT exactly one rule applies, and it has exactly one answer, which
/// `acted` is.
#[tactic(auto, using(crate::proofs::Rules::one_rule, crate::proofs::Rules::acts, crate::proofs::Rules::one_act))]
pub fn reserve_out_has_one_rule()
    ensures alone { (limit : ℕ) (s : Standing) (n : Nexus) (o : ReserveOut) (r t : Rule)
        → IsRule limit s n o r → IsRule limit s n o t → r ≡ t }
    ensures some { (limit : ℕ) (s : Standing) (n : Nexus) (o : ReserveOut) → o.action ≤ 6
        → Acts limit s n o (acted limit s n o) }
    ensures one { (limit : ℕ) (s : Standing) (n : Nexus) (o : ReserveOut) (a : Acted)
        → Acts limit s n o a → a ≡ acted limit s n o }
{}

/// Registrants stay well formed: within the limit, in order, with keys other than zero, and each
/// reservation holder registered.
#[tactic(auto, using(crate::proofs::WellFormed::well_formed))]
pub fn registrants_stay_well_formed()
    ensures { (limit : ℕ) (s : Standing) (n : Nexus) (o : ReserveOut) → IsWellFormed limit s
        → IsWellFormed limit (acted limit s n o).standing }
{}

/// Whether an act changed what is kept is told by the flags, the reservation, the number of
/// registrations and the caller's key.
#[tactic(auto, using(crate::proofs::Puts::acted_keeps))]
pub fn what_is_kept()
    ensures { (limit : ℕ) (s : Standing) (n : Nexus) (o : ReserveOut) (t : Standing)
        → IsAscending s.pairs → t ≡ (acted limit s n o).standing
        → not (same_kept (kept s) (kept t)) ≡ keeps_by s.preserve t.preserve
        (looks_same s.pairs t.pairs n) (same_reservation s.reservation t.reservation) }
{}

/// Two values of what is kept are one just where `same_kept` says so.
#[tactic(auto, using(crate::proofs::SameKept::same_kept_is, crate::proofs::SameKept::same_kept_itself))]
pub fn same_kept_is_equality()
    ensures same { (a b : Kept) → same_kept a b ≡ true → a ≡ b }
    ensures itself { (a : Kept) → same_kept a a ≡ true }
{}

/// A PERSISTENT RESERVE OUT that isn't GOOD changes nothing, and removes nobody.
#[tactic(auto, using(crate::proofs::Refusals::refused_stays))]
pub fn a_refusal_changes_nothing()
    ensures { (limit : ℕ) (s : Standing) (n : Nexus) (o : ReserveOut)
        → ((acted limit s n o).verdict ≡ Good → ⊥) → ((acted limit s n o).standing ≡ s)
        × ((acted limit s n o).removed ≡ []) }
{}

/// An act removes none but registered nexuses, registers none but its caller, tells of unit attention
/// conditions, and refuses with RESERVATION CONFLICT or ILLEGAL REQUEST.
pub fn whom_an_act_reaches()
    ensures registered { (limit : ℕ) (s : Standing) (n : Nexus) (o : ReserveOut) (m : Nexus)
        → is_registered (acted limit s n o).standing.pairs m ≡ true
        → (is_registered s.pairs m ≡ true) ⊎ (m ≡ n) }
    ensures removed { (limit : ℕ) (s : Standing) (n : Nexus) (o : ReserveOut) (m : Nexus)
        → is_registered (acted limit s n o).removed m ≡ true → is_registered s.pairs m ≡ true }
    ensures removed_code { (limit : ℕ) (s : Standing) (n : Nexus) (o : ReserveOut) (c : Code)
        → (acted limit s n o).removed_code ≡ Some c → is_attention c ≡ true }
    ensures stay_code { (limit : ℕ) (s : Standing) (n : Nexus) (o : ReserveOut) (c : Code)
        → (acted limit s n o).stay_code ≡ Some c → is_attention c ≡ true }
    ensures refusal { (limit : ℕ) (s : Standing) (n : Nexus) (o : ReserveOut) (c : Code)
        → (acted limit s n o).verdict ≡ Bad c → c.key ≡ ILLEGAL_REQUEST }
{}

/// A refused command leaves the world as it is, but that a unit attention which is reported goes.
pub fn a_refused_command_changes_little()
    ensures { RefusalsChangeLittle }
{}

/// Of a command there is exactly one outcome, but that its save may fail. A command that ends as it
/// is answered leaves that world.
pub fn a_command_has_one_outcome()
    ensures outcome { HasOneOutcome }
    ensures world { AnswersSettle }
{}

/// A PERSISTENT RESERVE OUT that is accepted is saved where it changes what is kept or there are
/// doubts, and a power-up restores what is kept.
pub fn what_is_saved_is_restored()
    ensures saved { AcceptedAreSaved }
    ensures restored { RestoredIsKept }
{}

/// No entry changes how many blocks the medium has, or whether the registrations' file tells what it
/// holds.
pub fn entries_keep_the_size()
    ensures size { KeepsSize }
    ensures telling { KeepsTelling }
{}

/// Where nothing is in doubt and no save fails, whatever a power loss leaves restores what is kept
/// after some entry, and no other value.
pub fn no_failure_leaves_a_doubt()
    ensures { NothingInDoubt }
{}

/// Bytes that wait behind a full buffer change no turn: they go on waiting behind what is left.
pub fn bytes_wait()
    ensures { BytesWait }
{}

/// No command of a reservation holder conflicts with the reservation, which is each registered nexus
/// where all registrants hold it; and no command conflicts that neither reads nor writes.
pub fn holders_never_conflict()
    ensures holders { HoldersPass }
    ensures registrants { RegistrantsPass }
    ensures free { FreePass }
{}

/// Nothing but a step changes a block: so a refused command changes none.
pub fn only_steps_change_blocks()
    ensures { OnlyStepsMove }
{}

/// In a block stands what the last entry left there that wrote it, read it, or failed to write it.
pub fn the_last_entry_decides_a_block()
    ensures spared { SparedStay }
    ensures decides { LastDecides }
{}

/// Once a PREEMPT AND ABORT was GOOD, a nexus that it removed changes a block only by a command that
/// comes later, while the nexus is registered or no reservation stands.
pub fn a_removed_nexus_is_fenced()
    ensures { LegalIsFenced }
{}

/// A task ends with TASK ABORTED just where a PREEMPT AND ABORT that was GOOD removed its nexus
/// since the command that began the task.
pub fn task_aborted_comes_of_fencing()
    ensures { AbortedIsFenced }
{}

/// Worked examples of commands, conflicts, marks, steps and replies compute.
pub fn worked_examples()
    ensures transfers { Transfers }
    ensures conflicts { Conflicts }
    ensures marks { Marks }
    ensures steps { Steps }
    ensures replies { Replies }
{}

/// Turns of a session that go on from where others ended are turns from where those began.
pub fn turns_are_joined()
    ensures { TurnsJoin }
{}
