ghost use Rattle.std.specs.Prelude.{◌≡◌, ◌++◌, ◌∷◌, ◌+ℤ◌, pos, [], List, Option, Some, ℕ, ℤ, true, false, get_or};
ghost use Rattle.two_silos.specs.Nodes.{Decision, Done, GrainId, NodeEntry, Part, Shift, TxnId};
ghost use Rattle.silo_nodes.specs.Packets.{Member, Distinct};
ghost use Rattle.silo_nodes.specs.Node.{is_busy};
ghost use Rattle.silo_nodes.specs.LogCache.{opening_in};
ghost use Rattle.silo_nodes.specs.Coordinators.{parts_from};
ghost use Rattle.two_silos.specs.World.{World, WorldEvent, Start, log_at, opening_at, begin, run, can_start, is_within, does, next_txn, parts_after, parts_in};
ghost use Rattle.two_silos.specs.Promise.{IsOpening, DecisionsAreKept, CommitsArePrepared, BalanceFollows, NoIsExact, NumberIsNew, QuietIsWhole, OrderAgrees};
ghost use Rattle.two_silos.specs.LaterWorlds.{IsLater, KeepsPart, given_in};
ghost use Rattle.two_silos.specs.Money.{AreOnce, ArePayments, NobodyWaits, all_opened, held_from, txns_amount};
ghost use Rattle.two_silos.specs.GeneratedEvents.{checked};
ghost use Rattle.two_silos.specs.Summaries.{summary_of};

/// What is done as committed is a commit of the coordinator's. What is done as aborted is none, then or later. A
/// transaction is done at most once at each participant.
pub fn decisions_are_kept()
    ensures kept { (openings : List (List (GrainId × ℤ))) (es : List WorldEvent) → IsOpening openings → DecisionsAreKept (run (begin openings) es) }
    ensures later { (openings : List (List (GrainId × ℤ))) (es more : List WorldEvent) → IsOpening openings → (n : ℕ) (t : TxnId)
        → Member (Done t false) (log_at (run (begin openings) es).nodes n) → Member t (run (begin openings) (es ++ more)).coordinator.commits → ⊥ }
{}

/// Each commit is prepared at each participant with shifts of it, with those shifts.
pub fn commits_are_prepared()
    ensures { (openings : List (List (GrainId × ℤ))) (es : List WorldEvent) → IsOpening openings
        → CommitsArePrepared (parts_in openings es) (run (begin openings) es) }
{}

/// A balance is the opening's plus the shifts of the coordinator's commits that are done there, and is never
/// negative. The opening balances stay.
pub fn balances_follow()
    ensures sums { (openings : List (List (GrainId × ℤ))) (es : List WorldEvent) → IsOpening openings → (n : ℕ) (g : GrainId) (b : ℤ)
        → opening_in (get_or openings n []) g ≡ Some b → BalanceFollows (run (begin openings) es) n g b }
    ensures openings { (openings : List (List (GrainId × ℤ))) (es : List WorldEvent) → IsOpening openings → (n : ℕ)
        → opening_at (run (begin openings) es).nodes n ≡ opening_in (get_or openings n []) }
{}

/// A no is sent exactly where a transaction is new to the participant and something is against one of its shifts.
pub fn no_is_exact()
    ensures { (opening : GrainId → Option ℤ) (log : List NodeEntry) (n : ℕ) (t : TxnId) (s : List Shift) → NoIsExact opening log n t s }
{}

/// No number is ever given twice, over restarts too.
pub fn numbers_are_new()
    ensures { (openings : List (List (GrainId × ℤ))) (es : List WorldEvent) → IsOpening openings → NumberIsNew (run (begin openings) es) }
{}

/// Where a participant waits for no decision, each of its balances is the opening's with all that the coordinator's
/// commits move there.
pub fn quiet_is_whole()
    ensures { (openings : List (List (GrainId × ℤ))) (es : List WorldEvent) → IsOpening openings
        → QuietIsWhole (parts_in openings es) (run (begin openings) es) }
{}

/// At each participant the commits that move one grain are done in the coordinator's order, all of them but the last
/// one at most.
pub fn orders_agree()
    ensures { (openings : List (List (GrainId × ℤ))) (es : List WorldEvent) → IsOpening openings
        → OrderAgrees (parts_in openings es) (run (begin openings) es) }
{}

/// A start that applies gives the next number its parts, and they stay whatever comes.
pub fn parts_are_started()
    ensures { (parts : TxnId → List Part) (w : World) (lists : List (List Shift)) (more : List WorldEvent) → can_start w lists ≡ true
        → is_within (does w (Start lists)) ≡ true → parts_after parts w (Start lists ∷ more) (next_txn w) ≡ parts_from 0 lists }
{}

/// No two decisions that were ever sent of one transaction differ. The coordinator's commits and each log only grow at their
/// end, whatever comes, so what is decided or logged there stays.
pub fn decisions_stay()
    ensures one { (openings : List (List (GrainId × ℤ))) (es : List WorldEvent) → IsOpening openings → (t : TxnId) (n m : ℕ)
        → Member (Decision t n true) (run (begin openings) es).packets → Member (Decision t m false) (run (begin openings) es).packets → ⊥ }
    ensures later { (openings : List (List (GrainId × ℤ))) (es more : List WorldEvent) → IsLater (run (begin openings) es) (run (begin openings) (es ++ more)) }
{}

/// No two transactions are given one number, over restarts too.
pub fn numbers_are_given_once()
    ensures { (openings : List (List (GrainId × ℤ))) (es : List WorldEvent) → Distinct (given_in (begin openings) es) }
{}

/// A participant keeps a grain busy only for a transaction that it has prepared, with the shifts that it was started with, and
/// that isn't done there; and for one at most.
pub fn grains_are_kept_by_prepared()
    ensures kept { (openings : List (List (GrainId × ℤ))) (es : List WorldEvent) → IsOpening openings → (n : ℕ) (g : GrainId)
        → is_busy (log_at (run (begin openings) es).nodes n) g ≡ true → KeepsPart (parts_in openings es) (run (begin openings) es) n g }
    ensures one { (openings : List (List (GrainId × ℤ))) (es : List WorldEvent) → IsOpening openings → (n : ℕ) (g : GrainId)
        → (a b : KeepsPart (parts_in openings es) (run (begin openings) es) n g) → a.txn ≡ b.txn }
{}

/// Money, over all grains of all participants: where none of them waits for a decision, the balances together are the opening
/// ones and all that the coordinator's commits move; and where each start takes as much from grains as it gives to others, they
/// are the opening ones.
pub fn money_stays()
    ensures moved { (openings : List (List (GrainId × ℤ))) (es : List WorldEvent) → IsOpening openings → AreOnce openings
        → NobodyWaits (run (begin openings) es)
        → held_from (run (begin openings) es) 0 openings ≡ all_opened openings +ℤ txns_amount (parts_in openings es)
        (run (begin openings) es).coordinator.commits }
    ensures stays { (openings : List (List (GrainId × ℤ))) (es : List WorldEvent) → IsOpening openings → AreOnce openings → ArePayments es
        → NobodyWaits (run (begin openings) es) → held_from (run (begin openings) es) 0 openings ≡ all_opened openings }
{}

/// A check moves money between its accounts, and makes and loses none: where it leaves nothing undecided, whatever its starts and
/// its seed, its 64 accounts of 1000 have 64000 together.
pub fn checks_keep_money()
    ensures { (starts seed : ℕ) → (summary_of starts (checked starts seed)).undecided ≡ 0 → (summary_of starts (checked starts seed)).total ≡ pos 64000 }
{}
