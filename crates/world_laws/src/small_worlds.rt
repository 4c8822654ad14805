//! Small worlds: what the laws speak of is there, and what they rule out would be.

ghost use Rattle.std.specs.Prelude.{◌≡◌, ℕ, List, [], ◌∷◌, ◌++◌};
ghost use Rattle.rmm_spec.specs.declared.event.Event.TheVariants.{Returned};
ghost use Rattle.rmm_spec.specs.declared.line.Line.TheVariants.{Keep, Unfinished};
ghost use Rattle.rmm_spec.specs.Rows.{ok, input_error};
ghost use Rattle.rmm_spec.specs.World.{World, opening_world, HappenAll, certificate_of};
ghost use Rattle.rmm_spec.specs.Waits.{IsRising, WaitsAt};
ghost use Rattle.world_laws.specs.SmallWorlds.{HappenBy, WaitForEachOther, IsWordTake, IsUnguarded, two_cpus, both_delegate, in_order, stopped_after_commit, both_called, both_make_realms, one_lock_each};
ghost use Rattle.world_laws.specs.Strays.{nine_granules, each_destroys, strays_taken};

/// Two CPUs delegate one granule: in either order the first is answered ok and the second is refused.
pub fn two_cpus_delegate_one_granule()
    ensures zero_first { (w : World) × HappenAll (opening_world two_cpus both_delegate) (in_order 0 1) w
        × (w.events ≡ both_called ++ Returned 0 0 (ok []) ∷ Returned 1 0 input_error ∷ [])
        × (certificate_of w ≡ Keep 0 0 ∷ Keep 1 0 ∷ []) }
    ensures one_first { (w : World) × HappenAll (opening_world two_cpus both_delegate) (in_order 1 0) w
        × (w.events ≡ both_called ++ Returned 1 0 (ok []) ∷ Returned 0 0 input_error ∷ [])
        × (certificate_of w ≡ Keep 1 0 ∷ Keep 0 0 ∷ []) }
{}

/// A CPU that stops after its commit keeps its lock: its call is an unfinished line, and the other CPU waits for it.
pub fn a_stopped_cpu_keeps_its_lock()
    ensures { (w : World) × HappenAll (opening_world two_cpus both_delegate) stopped_after_commit w
        × (w.events ≡ both_called) × (certificate_of w ≡ Unfinished 0 0 (ok []) ∷ []) × WaitsAt w 1 0x1000 0 }
{}

/// Two CPUs that take granules in the order of their commands' words come to wait for each other: each makes a realm of the same
/// two granules, and holds the one that it names first. CPU 0 is at a rising take, and CPU 1 isn't.
pub fn word_order_circles()
    ensures { (w : World) × HappenBy IsWordTake (opening_world two_cpus both_make_realms) one_lock_each w
        × WaitForEachOther IsWordTake w 0x2000 0x1000 × IsRising w 0 0x2000 × (IsRising w 1 0x1000 → ⊥) }
{}

/// Two CPUs that each destroy a REC of one realm, and hold an auxiliary granule of the other's, wait for each other: all that is
/// asked of a rising take holds of both, but that strays are parts of what is held.
pub fn strays_circle()
    ensures { (w : World) × HappenAll (opening_world nine_granules each_destroys) strays_taken w
        × WaitForEachOther IsUnguarded w 0x4000 0x7000 }
{}
