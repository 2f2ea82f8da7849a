//! What holds of priorities, whatever is pending, enabled, active and masked: each is the theorem
//! of a function that does nothing.

ghost use Rattle.std.specs.Prelude.{◌≡◌, ◌↔◌, ℕ, Bool, List, Option, length};
ghost use Rattle.platform.specs.Priorities.{Nvic, execution_priority, best, candidate, with_pending, with_active};
ghost use Rattle.platform.specs.Priorities.{with_enabled, with_priority, with_group, with_primask, with_faultmask};
ghost use Rattle.platform.specs.Priorities.{with_basepri, with_due, reset_nvic};
ghost use Rattle.nvic.specs.Laws.{IsBest, IsCandidate, IsLeast, FitsBoard, AddsDue};

/// The execution priority is the highest priority (the least number) of these: the lowest priority,
/// 256; the group priority of each active exception; and those of BASEPRI, PRIMASK and FAULTMASK
/// where they mask.
pub fn execution_priority_is_the_least()
    ensures { (n : Nvic) (p : ℕ) → IsLeast n p ↔ (p ≡ execution_priority n) }
{}

/// The best exception is exactly the one that is pending and enabled and comes before each other such
/// one, or None where no exception is pending and enabled.
#[tactic(auto, using(crate::proofs::Best::best_exactly))]
pub fn best_comes_before_all()
    ensures { (n : Nvic) (o : Option ℕ) → IsBest n o ↔ (o ≡ best n) }
{}

/// The candidate is exactly the best exception where that preempts, or None where no pending and
/// enabled exception preempts.
#[tactic(auto, using(crate::proofs::Best::candidate_exactly))]
pub fn candidate_is_the_best_that_preempts()
    ensures { (n : Nvic) (o : Option ℕ) → IsCandidate n o ↔ (o ≡ candidate n) }
{}

/// After a reset and after each change the sets hold exceptions of the board only, and each priority
/// byte and BASEPRI have only bits that it keeps.
pub fn changes_stay_on_the_board()
    ensures reset { (interrupts bits : ℕ) → FitsBoard (reset_nvic interrupts bits) }
    ensures pending { (n : Nvic) (x : ℕ) (on : Bool) → FitsBoard n → FitsBoard (with_pending n x on) }
    ensures enabled { (n : Nvic) (x : ℕ) (on : Bool) → FitsBoard n → FitsBoard (with_enabled n x on) }
    ensures active { (n : Nvic) (x : ℕ) (on : Bool) → FitsBoard n → FitsBoard (with_active n x on) }
    ensures priority { (n : Nvic) (x b : ℕ) → FitsBoard n → FitsBoard (with_priority n x b) }
    ensures group { (n : Nvic) (g : ℕ) → FitsBoard n → FitsBoard (with_group n g) }
    ensures primask { (n : Nvic) (on : Bool) → FitsBoard n → FitsBoard (with_primask n on) }
    ensures faultmask { (n : Nvic) (on : Bool) → FitsBoard n → FitsBoard (with_faultmask n on) }
    ensures basepri { (n : Nvic) (b : ℕ) → FitsBoard n → FitsBoard (with_basepri n b) }
    ensures due { (n : Nvic) (due : List ℕ) → FitsBoard n → FitsBoard (with_due n due) }
{}

/// After a tick, pending are those that were, and the exceptions of the board that are due.
pub fn what_is_due_is_added()
    ensures { (n : Nvic) (due : List ℕ) → length n.pending ≡ 256 → AddsDue n due (with_due n due) }
{}
