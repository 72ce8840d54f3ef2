//! What is in an order, and what isn't; and that in one order there is one run.
ghost use Rattle.std.specs.Prelude.{◌≡◌, ◌↔◌, ◌<◌, ◌∷◌, ◌++◌, [], ℕ, List};
ghost use Rattle.m386_base.specs.declared.ask.Cycle.{Cycle as CycleRecord};
ghost use Rattle.m386_image.specs.declared.image.Image.{Image as ImageRecord};
ghost use Rattle.m386_memory.specs.declared.ended.ProcEnd.{ProcEnd};
ghost use Rattle.m386_state.specs.declared.proc.Proc.{Proc as ProcRecord};
ghost use Rattle.m386_step.specs.Run.{Run};
ghost use Rattle.m386_core.specs.declared.order.Order.{Order as OrderData};
ghost use Rattle.m386_core.specs.declared.order.Order.TheVariants as orders;
ghost use Rattle.m386_core.specs.Order.{InOrder};
ghost use Rattle.m386_core.specs.Place.{IsPassedOver};

/// The empty history is in each order. A first cycle is in an order exactly where it is by the processor that the order names
/// first, unless that one is passed over: 0 in turn, the first member of a list, and of eight processors 7 from the seed 0.
/// No history whose last cycle is by a processor that there isn't is in turn. The function does nothing; its clauses are the
/// laws.
pub fn order_laws()
    ensures empty { (I : ImageRecord) (c n : ℕ) (order : OrderData) → InOrder I c n order [] }
    ensures turns { (I : ImageRecord) (c n : ℕ) (x : CycleRecord) → ¬ IsPassedOver I c n [] 0
        → InOrder I c n orders.Round (x ∷ []) ↔ (x.cpu ≡ 0) }
    ensures list { (I : ImageRecord) (c n p : ℕ) (ps : List ℕ) (x : CycleRecord) → p < c → ¬ IsPassedOver I c n [] p
        → InOrder I c n (orders.List (p ∷ ps)) (x ∷ []) ↔ (x.cpu ≡ p) }
    ensures seed { (I : ImageRecord) (n : ℕ) (x : CycleRecord) → ¬ IsPassedOver I 8 n [] 7
        → InOrder I 8 n (orders.Seed 0) (x ∷ []) ↔ (x.cpu ≡ 7) }
    ensures below { (I : ImageRecord) (c n : ℕ) (G : List CycleRecord) (x : CycleRecord) → 0 < c
        → InOrder I c n orders.Round (G ++ x ∷ []) → x.cpu < c }
{}

/// In one order an image has one run: two runs of as many processors with as many steps each, whose cycles are in the same
/// order, have one history, and end in one way. The function does nothing; its clauses are the laws.
pub fn one_run_for_one_order()
    ensures history { (I : ImageRecord) (c n : ℕ) (order : OrderData) (H G : List CycleRecord) (D E : List (ProcEnd ProcRecord))
        → InOrder I c n order H → Run I c n H D → InOrder I c n order G → Run I c n G E → H ≡ G }
    ensures ends { (I : ImageRecord) (c n : ℕ) (order : OrderData) (H G : List CycleRecord) (D E : List (ProcEnd ProcRecord))
        → InOrder I c n order H → Run I c n H D → InOrder I c n order G → Run I c n G E → D ≡ E }
{}
