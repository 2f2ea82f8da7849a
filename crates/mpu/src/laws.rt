//! What holds of owners and decisions, whatever the registers hold: each is the theorem of a
//! function that does nothing.

ghost use Rattle.std.specs.Prelude.{◌≡◌, ◌↔◌, ◌⊎◌, ℕ, Option};
ghost use Rattle.platform.specs.Regions.{Mpu, IsSound, IsOwner, owner, fresh, write, after_write};
ghost use Rattle.platform.specs.Rules.{AccessQuery, IsFirstFit, decision_of};
ghost use Rattle.platform.specs.declared.access.Decision.{Decision};
ghost use Rattle.platform.specs.declared.mpu.MpuRegister.{MpuRegister};

/// The registers are sound after a reset, and stay so after each write, whether it's taken or not.
#[tactic(auto, using(crate::proofs::Writes::sound_at_reset, crate::proofs::Writes::sound_after_write))]
pub fn registers_stay_sound()
    ensures reset { (count : ℕ) → (count ≡ 8) ⊎ (count ≡ 16) → IsSound (fresh count) }
    ensures writes { (m : Mpu) (register : MpuRegister) (value : ℕ) → IsSound m
        → IsSound (after_write m (write m register value)) }
{}

/// The owner of an address is exactly the enabled region of the greatest number that it lies in, or
/// None where it lies in none.
#[tactic(auto, using(crate::proofs::Belonging::owner_exactly))]
pub fn owner_is_the_highest()
    ensures { (m : Mpu) (a : ℕ) (o : Option ℕ) → IsOwner m a o ↔ (o ≡ owner m a) }
{}

/// The decision on an access is exactly that of the first rule that fits, in the order of `rank` of
/// Rules.antt, and grants what that rule grants. So exactly one rule decides each access.
pub fn decision_is_by_the_first_case()
    ensures { (m : Mpu) (q : AccessQuery) (d : Decision)
        → IsFirstFit m q d ↔ (d ≡ decision_of m q.address q.kind q.privileged q.below_zero) }
{}
