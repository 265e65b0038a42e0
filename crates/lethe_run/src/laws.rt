//! Laws of what a run's lines say, in words that don't say how they come about. The functions do nothing: their contracts are the laws.
ghost use Rattle.std.specs.Prelude.{◌≡◌, ◌↔◌, ℕ, List, length, All, IsPermutation};
ghost use Rattle.lethe_base.specs.Keys.{Bytes};
ghost use Rattle.lethe_base.specs.History.{Pair, State};
ghost use Rattle.lethe_base.specs.Read.{Scan, Listed, answer};
ghost use Rattle.lethe_base.specs.declared.config.Fields.{Fields};
ghost use Rattle.lethe_script.specs.declared.order.Order.{Order};
ghost use Rattle.lethe_script.specs.Slots.{orders_by};
ghost use Rattle.lethe_run.specs.declared.reply.Line.{Line};
ghost use Rattle.lethe_run.specs.declared.reply.Line.TheVariants as line;
ghost use Rattle.lethe_run.specs.declared.reply.Reply.TheVariants.{Barred};
ghost use Rattle.lethe_run.specs.Anywhere.{IsPlausible, caller_in};
ghost use Rattle.lethe_run.specs.Callers.{IsCaller};
ghost use Rattle.lethe_run.specs.PinLaws.{IsAt, MayBeHeld, numbers_in};
ghost use Rattle.lethe_run.specs.Scans.{IsScan};
ghost use Rattle.lethe_run.specs.Transcript.{AreTurned, places_behind, printed};

use lethe_disk::Disk;

/// A list is the answer of a scan exactly where its keys strictly ascend and are those of the range that the map has,
/// each with the map's pair. So two such lists are equal.
pub fn one_scan()
    ensures { (s : State) (lo hi : Bytes) (pairs : List (Bytes × Pair))
        → (answer s (Scan lo hi) ≡ Listed pairs) ↔ IsScan s.map lo hi pairs }
{}

/// Where a phase has the orders of one caller alone, they are printed as they stand in the script, and its lines and its orders have one order only: that one.
pub fn one_callers_order()
    ensures printed { (orders : List Order) (caller : ℕ) → IsCaller caller → All (λ order. order.caller ≡ caller) orders → printed orders ≡ orders }
    ensures lines { (lines turned : List Line) (caller : ℕ) → All (λ line. caller_in line ≡ caller) lines → AreTurned lines turned → turned ≡ lines }
    ensures orders { (orders asked : List Order) (caller : ℕ) → All (λ order. order.caller ≡ caller) orders
        → ((other : ℕ) → orders_by other asked ≡ orders_by other orders) → asked ≡ orders }
{}

/// On any disk, a pin that bars a tick may be held there: its line stands in no later phase and is no later line of the same caller, and no `unpin` of it stands in an earlier phase or is an
/// earlier line of the same caller.
pub fn bars_are_of_held_pins<D: Disk>()
    ensures { (config : Fields) (from upto : ℕ) (phases : List (List Order)) (lines turned : List (List Line)) → IsPlausible D.ports_fail config from upto phases lines turned
        → (caller number limit : ℕ) (at : IsAt lines (line.Answer caller (Barred number limit))) → MayBeHeld at number limit }
{}

/// On any disk, along the one order of a run's lines the pins have the numbers 1, 2 and so on, and so the printed lines have each of these numbers once.
pub fn pins_are_numbered<D: Disk>()
    ensures turned { (config : Fields) (from upto : ℕ) (phases : List (List Order)) (lines turned : List (List Line)) → IsPlausible D.ports_fail config from upto phases lines turned
        → numbers_in turned ≡ places_behind 0 (length (numbers_in turned)) }
    ensures printed { (config : Fields) (from upto : ℕ) (phases : List (List Order)) (lines turned : List (List Line)) → IsPlausible D.ports_fail config from upto phases lines turned
        → IsPermutation (places_behind 0 (length (numbers_in lines))) (numbers_in lines) }
{}
